//! Tests of the crates of files and of what stands in them: numbers as text and the places of files, the
//! files of a run, the text of scripts and its versions, the scenes that are made without files, and the log
//! of slots. And of memory: its versions with words, pages, views at each clock, what is kept of it, and the
//! ring of a run's latest states. They stand here and not beside the code, so that those crates are proved
//! once.
#![tactic(auto)]

#[cfg(test)]
mod answers;
#[cfg(test)]
mod files_of_a_run;
#[cfg(test)]
mod kept_memory;
#[cfg(test)]
mod latest_states;
#[cfg(test)]
mod log_texts;
#[cfg(test)]
mod memory_views;
#[cfg(test)]
mod numbers_and_places;
#[cfg(test)]
mod replayed_memory;
#[cfg(test)]
mod scenes;
#[cfg(test)]
mod script_versions;
#[cfg(test)]
mod scripts;
#[cfg(test)]
mod texts;
