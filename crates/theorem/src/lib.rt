// The three demands, each one statement over the answers of the calls. There is no code here; specs/Demand1.antt, Demand2.antt and Demand3.antt have the
// demands, sentence by sentence, and proofs/Demand1Laws.antt, Demand2Laws.antt and Demand3Laws.antt prove them.
#![tactic(auto)]
