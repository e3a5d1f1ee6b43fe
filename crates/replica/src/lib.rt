// The board rules and the leaf rule, and which claims of one replica break a rule (document 01, "Board rules"
// and "The report"; document 02, W4 and W5; a replica is document 01's board): definitions, and that a
// replica which keeps the rules signs no two claims that are charged.
#![tactic(auto)]
