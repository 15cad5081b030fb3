//! Runs of the command line that a text cannot tell, as tests: of real files; of inputs that are asked for up to
//! their greatest lengths; and logs of the slots of a run, with what each of their statuses says and leaves. All
//! are worked by hand. Nothing of it is part of the program. All other runs are those of `test_runs`; what they rest
//! on is here: that a run that is told wrongly is found.
#![tactic(auto)]

#[cfg(test)]
mod caps;
#[cfg(test)]
mod folder;
#[cfg(test)]
mod slot_answers;
#[cfg(test)]
mod slot_cases;
#[cfg(test)]
mod slot_logs;
#[cfg(test)]
mod told_wrongly;
