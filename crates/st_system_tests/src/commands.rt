//! A command line of 100,000 words.

use st_commands::{Refusal, read_words};
use std::test::Fail;

#[test]
fn a_hundred_thousand_words_are_told_the_usage(rt: HostRuntime) -> Result<(), Fail> {
    let words = vec![in rt.alloc(); "check"; 100_000]?;
    let task = read_words(rt.alloc(), words.as_slice());
    assert!(rt; task == Err(Refusal::Usage));
    Ok(())
}
