//! Tests of what stands above the disk: the model's values and laws, the table of processes, new and damaged disks, the methods of
//! file systems and the times that they keep, the texts of the shell and its runs. What file systems answer to lines is tried by
//! the program `player`.
#![tactic(auto)]

#[cfg(test)]
mod damaged_images;
#[cfg(test)]
mod laws;
#[cfg(test)]
mod methods;
#[cfg(test)]
mod model_values;
#[cfg(test)]
mod mounts;
#[cfg(test)]
mod new_disks;
#[cfg(test)]
mod processes;
#[cfg(test)]
mod script_runs;
#[cfg(test)]
mod texts;
#[cfg(test)]
mod times;
#[cfg(test)]
mod upgrades;
