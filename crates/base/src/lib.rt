// Lists and words of bits, as every crate of the finder uses them: definitions in specs/, laws in proofs/.
// Nothing here knows of stands or grids, and nothing runs.
#![tactic(auto)]
