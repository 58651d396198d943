//! `cpgring admit`: whom a conf file lets in, as the file stands on a machine.
//!
//! The shape of the conf file is that of Corosync's; accounts are read from texts of passwd(5) and group(5) form, or
//! from a names text. Proved: what is answered and told are the definitions in `specs/`, byte for byte.

mod accounts;
mod admitting;
mod asking;
mod forms;
mod printing;
mod telling;
mod texts;

pub use admitting::{list_confs, read_names};
pub use asking::{find_wrong_ask, read_asks};
pub use forms::{AsEcho, AsText, TellsAdmitted};
pub use printing::{print, print_echo, print_in_form};
pub use telling::fault_line;
pub use texts::{AdmitFault, File, NamedText, NamesFrom};
