//! Adapters of files and of the standard streams. They tell nothing of content, and count their
//! errors.

pub mod file_tapes;
pub mod folder_vault;
pub mod std_sink;
pub mod std_source;
