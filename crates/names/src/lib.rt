// The paper's worked examples, 'Names to try', in one place. There is no code here; specs/Names.antt is the table of them and what each
// line says, and proofs/NamesLaws.antt proves them together.
#![tactic(auto)]
