// Definitions alone: the day, what a study decides, its whole outcome, demand 3, and the starred
// examples. No code: nothing here can lean on the engine.
#![tactic(auto)]
