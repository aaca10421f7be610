// Worked floors: small plant files whose verdicts and caps are known, and a file for each refusal with its place.
// Each test is proved safe, and run.

#![tactic(auto)]

#[cfg(test)]
mod accepted;
#[cfg(test)]
mod refused;
