// Worked lines, with closings, ceilings and sheets over them, and the plans that they lead to.
// Each test is proved safe, and run.

#![tactic(auto)]

#[cfg(test)]
mod plans;
#[cfg(test)]
mod settings;
