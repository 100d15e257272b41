// What is said of a case.
use crate::cases::judge;
use crate::fault::Fault;
use crate::fields::Fields;
use std::alloc::Global;
use std::str::from_utf8;

#[derive(Drop)]
pub struct Verdict {
    pub kind: String,
    // what came out instead, if the case disagrees
    pub other: Option<String>,
}

impl Verdict {
    // The verdict on a line of input; none on an empty line or a comment.
    pub fn of(heap: Global, line: &[u8]) -> Result<Option<Verdict>, Fault> {
        let line = from_utf8(line).map_err(|_| Fault::Malformed)?;
        if line.is_empty() || line.starts_with('#') {
            return Ok(None);
        }
        let mut fields = Fields::new(heap, line);
        let kind = fields.text()?;
        let other = judge(kind, &mut fields)?;
        let kind = String::from_str(heap, kind)?;
        Ok(Some(Verdict { kind, other }))
    }
}
