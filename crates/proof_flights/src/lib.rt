// Stripes in flight, on any image that a restart accepted: what their chunks on the drives are, and that the parity of written stripes is right (specs/).
// There is no code here.
#![tactic(auto)]
