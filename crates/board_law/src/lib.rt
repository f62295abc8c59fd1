// What the calls on a board do, and the law that measured spans keep through any run of them. There is no code here: the board's
// calls answer by these definitions.
#![tactic(auto)]
