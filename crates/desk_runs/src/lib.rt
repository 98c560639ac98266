#![tactic(auto)]

// What runs of calls at the desk show (paper 01, demand 2): specs/ has runs and their theorems. There is no code here.
