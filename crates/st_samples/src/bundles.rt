//! Texts of bundles.

/// A send from process 30 and its receive by process 31.
pub const ONE_MESSAGE: &str = "seqtrace 1\n\
    process <0.30.0>\n\
    {seq_trace,17,{send,{0,1},<0.30.0>,<0.31.0>,5}}\n\
    process <0.31.0>\n\
    {seq_trace,17,{'receive',{0,1},<0.30.0>,<0.31.0>,5}}\n";

/// A print and a receive of each of two processes, with acts that explain them; no send was
/// reported.
pub const HIDDEN_SENDS_CERTIFICATE: &str = "seqtrace 1\n\
    process <0.30.0>\n\
    {seq_trace,17,{print,{0,1},<0.30.0>,[],7}}\n\
    {seq_trace,17,{'receive',{2,4},<0.31.0>,<0.30.0>,6}}\n\
    process <0.31.0>\n\
    {seq_trace,17,{'receive',{0,2},<0.30.0>,<0.31.0>,5}}\n\
    {seq_trace,17,{print,{2,3},<0.31.0>,[],8}}\n\
    acts\n\
    tracer <0.30.0> true\n\
    restore <0.30.0> 17 false false true 0 0 <0.30.0>\n\
    print <0.30.0> 7\n\
    restore <0.30.0> 17 false true false 0 0 <0.30.0>\n\
    send <0.30.0> <0.31.0> 5\n\
    receive <0.31.0> place 0\n\
    restore <0.31.0> 17 false false true 0 0 <0.31.0>\n\
    print <0.31.0> 8\n\
    restore <0.31.0> 17 false true false 0 0 <0.31.0>\n\
    send <0.31.0> <0.30.0> 6\n\
    receive <0.30.0> place 0\n";
