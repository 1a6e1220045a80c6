//! Sockets that never wait, for the server on one thread; sockets that are files; and the system's clock.
#![tactic(auto)]

mod calls;
mod clock;
mod files;
mod folder;
mod greeting;
mod identity;
mod keepalive;
mod lingering;
mod link;
mod listeners;
mod locks;
mod owners;
mod scrapers;
mod sockets;
mod streams;

pub use clock::moment;
pub use files::{SocketFiles, UNIX, listen_at_file, path_of};
pub use folder::{UserSocket, folder_of};
pub use keepalive::probe_silent_peers;
pub use owners::sockets_of;
pub use sockets::Sockets;
