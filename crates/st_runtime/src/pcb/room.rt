//! Room in logs for one more entry.

ghost use Rattle.std.specs.Prelude.{◌≡◌, ◌≢◌, ◌+◌, ◌<◌, ◌≤◌, ◌↔◌, max, Err, IfOk, OnOk};
ghost use Rattle.st_log.specs.Entries.{last_rank};

use crate::fault::PcbFault;
use st_log::Log;

/// Makes room for one entry, and returns its rank. Fails with `RankFull`, else with `Memory`.
pub fn room(log: &mut Log, ranks: u64) -> Result<u64, PcbFault>
    requires { last_rank 0 log.old.entries ≤ ranks }
    ensures rank { IfOk result (λ n. (n ≡ last_rank 0 log.old.entries + 1) × (n ≤ ranks)) }
    ensures entries { log.new.entries ≡ log.old.entries }
    ensures room { OnOk result (0 < log.new.spare) }
    ensures full { (result ≡ Err PcbFault.RankFull) ↔ (last_rank 0 log.old.entries ≡ ranks) }
    ensures memory { 0 < log.old.spare → result ≢ Err PcbFault.Memory }
    ensures clock { result ≢ Err PcbFault.ClockFull }
{
    let last = log.last_rank();
    if last == ranks {
        return Err(PcbFault::RankFull);
    }
    let Ok(()) = log.reserve() else {
        return Err(PcbFault::Memory);
    };
    Ok(last + 1)
}

/// Makes room for one entry in both logs, and returns its rank. Fails with `RankFull`, else with
/// `Memory`.
pub fn room_in_both(a: &mut Log, b: &mut Log, ranks: u64) -> Result<u64, PcbFault>
    requires a { last_rank 0 a.old.entries ≤ ranks }
    requires b { last_rank 0 b.old.entries ≤ ranks }
    ensures rank { IfOk result (λ n.
        (n ≡ max (last_rank 0 a.old.entries) (last_rank 0 b.old.entries) + 1) × (n ≤ ranks)) }
    ensures a_entries { a.new.entries ≡ a.old.entries }
    ensures b_entries { b.new.entries ≡ b.old.entries }
    ensures a_room { OnOk result (0 < a.new.spare) }
    ensures b_room { OnOk result (0 < b.new.spare) }
    ensures full { (result ≡ Err PcbFault.RankFull)
        ↔ (max (last_rank 0 a.old.entries) (last_rank 0 b.old.entries) ≡ ranks) }
    ensures clock { result ≢ Err PcbFault.ClockFull }
{
    let last = a.last_rank().max(b.last_rank());
    if last == ranks {
        return Err(PcbFault::RankFull);
    }
    let Ok(()) = a.reserve() else {
        return Err(PcbFault::Memory);
    };
    let Ok(()) = b.reserve() else {
        return Err(PcbFault::Memory);
    };
    Ok(last + 1)
}
