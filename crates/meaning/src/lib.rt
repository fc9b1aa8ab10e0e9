// What the definitions of the rules mean: the letter tree of a table, the words of its index, the answers. Mathematics alone: definitions in specs/, laws in proofs/.
// Nothing here runs.
#![tactic(auto)]
