// Histories that go on through imports (02 §11): definitions and theorems, no code.
#![tactic(auto)]
