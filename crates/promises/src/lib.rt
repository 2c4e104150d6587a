// What the front promises over several calls, from open on: `specs/Promises.antt` is the file to open first.
//
// The statements speak of every list of calls, over one step, to which each operation's contract is tied, and of what
// the calls did: one effect for each, read off the call and its answer. Each statement is proved once for each effect,
// and each call has one. And P1 to P12 of document 01 are one table of examples and one theorem. There is no code here.
#![tactic(auto)]
