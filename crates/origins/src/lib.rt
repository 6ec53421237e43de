// Where the value of a data, display or scan cell comes from: the cell's writers alone. Definitions and theorems; no function.
#![tactic(auto)]
