// The T=1 session as document 01 has it, in specs/: what a slot is, the calls on it and their answers, the rows of the
// paper's table, and what follows for every sequence of calls. No bytes of a table and no code: the code is in `slot`,
// `turn` and `terminal`, and `terminal` shows that it does this.
#![tactic(auto)]
