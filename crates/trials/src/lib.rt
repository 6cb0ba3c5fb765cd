// Line and receiver tried through their public calls, over piles of one or two stages.
// What each call has to answer is worked out from docs/rules. The calls are made by functions over any pile, so a trial is a table of calls.

#![tactic(auto)]

#[cfg(test)]
mod line_calls;
#[cfg(test)]
mod line_trials;
#[cfg(test)]
mod packets;
#[cfg(test)]
mod receiver_calls;
#[cfg(test)]
mod receiver_trials;
#[cfg(test)]
mod refusal_numbers;
