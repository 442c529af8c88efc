//! Tests of an administrator that is given the replies of a run. What is wanted is what another program's administrator tells and sends in that
//! run. They show besides that its calls can succeed, which no contract says.
#![tactic(auto)]

#[cfg(test)]
mod acts;
#[cfg(test)]
mod playing;
#[cfg(test)]
mod words;
