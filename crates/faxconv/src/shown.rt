//! Pictures with their damage in colour.

use crate::output::Output;
use crate::run::Run;
use fax_pages::Page;
use fax_pictures::{Bitmap, PictureError};
use fax_shown::{Canvas, Marks, damage_shown, marks_of};
use faxconv_lib::Status;
use faxconv_lib::names::name_of_picture;
use faxconv_out::Drawing;
use std::alloc::{AllocError, Global};

impl<'a, 'b, 'c> Run<'a, 'b, 'c> {
    /// Writes the picture of a page, as it is shown, with its damage in colour.
    pub(crate) fn write_shown(
        &mut self,
        page: &Page<'_>,
        picture: Bitmap,
        output: Output,
    ) -> Result<Status, AllocError> {
        let alloc = self.rt.alloc();
        let (columns, rows) = (picture.columns(), picture.rows());
        let mut marks = marks_of(alloc, page)?;
        marks.turn(page.orientation, page.columns, page.rows);
        let orientation = self.orientation();
        let is_across = matches!(orientation, 6 | 8);
        let number = self.told(output.number);
        let name = name_of_picture(alloc, self.options, number, output.is_only)?;
        let (Some(name), false) = (name, marks.are_none()) else {
            return self.write_turned(picture, output, &page.texts);
        };
        marks.turn(orientation, columns, rows);
        match drawn(alloc, picture, &marks, orientation) {
            Ok(canvas) => {
                let output = self.with_resolution(output, is_across);
                self.write_file(name.as_str(), Drawing::Colored(&canvas), output)
            }
            Err(error) => self.cannot_turn(error, columns, rows),
        }
    }
}

/// Returns a picture turned by an orientation, with its damage in colour.
fn drawn(
    alloc: Global,
    picture: Bitmap,
    marks: &Marks,
    orientation: u8,
) -> Result<Canvas, PictureError> {
    if orientation == 1 {
        return damage_shown(alloc, &picture, marks);
    }
    let turned = picture.turned(alloc, orientation)?;
    damage_shown(alloc, &turned, marks)
}
