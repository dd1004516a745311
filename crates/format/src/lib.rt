// The format: what is true of packets and met files. Definitions (specs/) and laws about them (proofs/), no code.
// Read specs/ in this order: Messages, Layout, Rules, Order; README.md of the repository says more.

#![tactic(auto)]
