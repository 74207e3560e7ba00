// Trivia items, leaves, and the fields and items of records as printers read them: definitions and laws only.
#![tactic(auto)]
