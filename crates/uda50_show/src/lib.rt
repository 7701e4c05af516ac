//! The printed forms of packets, blocks and images for the program `uda50`: values with their texts.
//!
//! `decode::decode` prints the packets of a text. `ImageFacts` has the facts of an image, and `image_json` returns their
//! JSON object.
#![tactic(auto)]

mod boot_block;
mod cells;
mod checksum;
mod compatible;
mod container;
pub mod decode;
mod digits;
mod disk_label;
mod drive_type;
mod facts;
mod fields;
mod foreign;
mod home_block;
mod json;
mod name;
mod number;
mod packet;
mod reached;
mod reader;
mod row;
mod squeeze;
mod text;

pub use boot_block::BootBlock;
pub use checksum::Checksum;
pub use compatible::{COMPATIBLE_TEXT, CompatibleCommand, CompatibleMessage, UnitAvailable};
pub use container::{ContainerRecord, SimhRecord};
pub use disk_label::DiskLabel;
pub use drive_type::{DRIVE_TYPE_COUNT, DriveTypeEntry, TypesOfSize};
pub use facts::{Contents, ImageFacts, StructureBlocks};
pub use foreign::ForeignFormat;
pub use home_block::{HomeBlock, VolumeFormat};
pub use json::{error_json, image_json};
pub use name::{EscapedBytes, EscapedName, is_control};
pub use number::{Counted, Grouped};
pub use packet::{PACKET_TEXT, Packet};
pub use reached::{Reached, Taken};
pub use reader::{PacketReader, TokenError};
pub use row::{HexRow, OctalRow};
pub use squeeze::{LeftOutBlocks, PrintedBlock, RowForm, Squeeze};
pub use text::FixedText;
