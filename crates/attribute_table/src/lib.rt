//! The attributes that become one AVP each, what their values become, the parts of Vendor-Specific
//! attributes, and which AVPs are known.
#![tactic(auto)]

mod image;
mod known;
mod laws;
mod parts;
mod row;
mod vendor;

pub use image::{Image, RowFault, backward, forward, forward_checked};
pub use known::{is_key, is_known};
pub use laws::{
    backward_images_keep_length, images_go_back, images_keep_length, rows_keep_numbers, rows_meet,
    vendors_have_one_reading,
};
pub use parts::{Vsa, VsaPart};
pub use row::{Kind, Row, row_of_avp, row_of_type};
pub use vendor::vsa;
