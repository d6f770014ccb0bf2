// Tests of runs: bad and extreme input, each refusal, and the EGD ledger.
#![tactic(auto)]

#[cfg(test)]
mod egd;
#[cfg(test)]
mod limits;
#[cfg(test)]
mod refusals;
#[cfg(test)]
mod stops;
#[cfg(test)]
mod tools;
