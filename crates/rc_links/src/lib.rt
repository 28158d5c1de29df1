//! The order in which init scripts are started and stopped: the least start and stop number of each script, or a cycle
//! of names that makes numbers impossible (LSB Core 5.0); and the links in the runlevels' folders.
#![tactic(auto)]

mod all_last;
mod changing;
mod faults;
mod folder_entries;
mod folders;
mod kept;
mod names;
mod needs;
mod planning;
mod plans;
mod printing;
mod scripts;
mod sets;
mod tables;

pub use all_last::{add_all, has_name};
pub use changing::{changes, taken};
pub use faults::PlanFault;
pub use folder_entries::{FolderEntry, is_same};
pub use folders::{Folder, LinkAction, LinkChange};
pub use kept::gone;
pub use names::{is_name, is_name_byte};
pub use planning::plan;
pub use plans::Plan;
pub use printing::{LEVELS, linked_name};
pub use scripts::Script;
