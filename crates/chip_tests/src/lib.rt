//! Tests of the crates of the clock loop: numbers and addresses, beam, registers, slots, Copper, blitter and
//! fetches; of the crates of the picture: planes, sprites, collisions, colours, painter, and the jobs of
//! bands; and of the sides: audio channels and disk reading, each alone on a bus. A module a crate, or
//! several.
//!
//! A crate with tests is proved twice, so these crates have none of their own, and this one has nothing else.
#![tactic(auto)]

#[cfg(test)]
mod answers;
#[cfg(test)]
mod area_blits;
#[cfg(test)]
mod base_values;
#[cfg(test)]
mod beam_places;
#[cfg(test)]
mod bench;
#[cfg(test)]
mod bitplane_lines;
#[cfg(test)]
mod blits_of_both_kinds;
#[cfg(test)]
mod copper_steps;
#[cfg(test)]
mod disk_lines;
#[cfg(test)]
mod disk_steps;
#[cfg(test)]
mod first_registers;
#[cfg(test)]
mod jobs_of_bands;
#[cfg(test)]
mod line_blits;
#[cfg(test)]
mod painted_clocks;
#[cfg(test)]
mod painted_spans;
#[cfg(test)]
mod pixel_collisions;
#[cfg(test)]
mod pixel_colours;
#[cfg(test)]
mod plane_loads;
#[cfg(test)]
mod register_file;
#[cfg(test)]
mod rows_of_sprites;
#[cfg(test)]
mod slot_owners;
#[cfg(test)]
mod sound_lines;
#[cfg(test)]
mod sound_steps;
#[cfg(test)]
mod sprite_lines;
#[cfg(test)]
mod sprite_values;
#[cfg(test)]
mod written_registers;
