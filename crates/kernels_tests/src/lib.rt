//! Tests of `kernels`: each kernel on columns against a plain loop over their values, at every length from 0 to 130 and at
//! every bit offset from 0 to 9, with and without nulls. Expected values come from the loops, and none from a kernel.
#![tactic(auto)]

#[cfg(test)]
mod logic;
#[cfg(test)]
mod numbers;
