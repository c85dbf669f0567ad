// A report on a file: where it is printed, and what came of keying the file into a new sheet.
use files::{FileRefusal, key_in};
use sheets::Sheet;

#[derive(Drop)]
pub(crate) struct Report<'a, R: Print> {
    pub(crate) rt: &'a R,
    pub(crate) file: &'a [u8],
    pub(crate) sheet: Sheet,
    pub(crate) answer: Result<(), FileRefusal>,
}

impl<'a, R: Print> Report<'a, R> {
    pub(crate) fn new(rt: &'a R, file: &'a [u8]) -> Report<'a, R> {
        let mut sheet = Sheet::new();
        let answer = key_in(file, &mut sheet);
        Report {
            rt,
            file,
            sheet,
            answer,
        }
    }
}
