//! What programs of rows share: the steps of a case, images and disks in memory, and what is printed of them.
#![tactic(auto)]

mod disks;
mod folders;
mod images;
mod made;
mod shelf;
mod step;
mod steps;
mod text;

pub use disks::{on_disk, with_fails};
pub use folders::on_folders;
pub use images::image;
pub use made::made_of;
pub use shelf::{Blank, Shelf};
pub use step::{Step, bytes};
pub use steps::{Case, is_title, print_steps};
pub use text::{hex, put_hex, records, said, tuple};
