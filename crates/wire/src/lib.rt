// Segments of a connection (000, section 2.1.1), and which instance each is for.
//
// `segment`: the eight bytes in front of a payload, read and written; each way undoes the other.
// `instances`: protocol number and mode together choose the instance; what one side sends as an
// instance arrives at the other side's instance of the same protocol and the other role.
#![tactic(auto)]

pub mod instances;
pub mod segment;
