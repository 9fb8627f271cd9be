// The six calls that C makes, in specs/: for every input the number that is returned, the answer, and every byte of the
// table, the output and the record. No code: the code is in `outgoing`, `hearing`, `leaving` and `rack`. proofs/ shows that
// the table stays sound, and that bytes beyond its 32,768 are neither read nor written.
#![tactic(auto)]
