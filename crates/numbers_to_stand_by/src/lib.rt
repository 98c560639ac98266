#![tactic(auto)]

// The numbers to stand by of paper 01: specs/ has them as one table, and what is proved of it. There is no code here.
