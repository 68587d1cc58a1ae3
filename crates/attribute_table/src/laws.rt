//! Laws of the rows and the images.

ghost use Rattle.attribute_table.specs.Images.{BackwardImagesKeepLength, ImagesGoBack, ImagesKeepLength};
ghost use Rattle.attribute_table.specs.Vendors.{VendorsHaveOneReading};
ghost use Rattle.attribute_table.specs.Rows.{RowsKeepNumbers, RowsMeet};

/// A row stands under its type, and its AVP has the same number.
pub fn rows_keep_numbers()
    ensures { RowsKeepNumbers }
{}

/// An image is as long as its value.
pub fn images_keep_length()
    ensures { ImagesKeepLength }
{}

/// The same the other way, and it fits in an attribute.
pub fn backward_images_keep_length()
    ensures { BackwardImagesKeepLength }
{}

/// A value that was translated is translated back to itself.
pub fn images_go_back()
    ensures { ImagesGoBack }
{}

/// The row of an AVP is that of the attribute of the same number.
pub fn rows_meet()
    ensures { RowsMeet }
{}

/// A value is a Vendor-Specific attribute in one way at most.
pub fn vendors_have_one_reading()
    ensures { VendorsHaveOneReading }
{}
