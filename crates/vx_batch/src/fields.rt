ghost use Rattle.std.specs.Prelude.{◌≡◌, IfOk};
ghost use Rattle.vx_batch.specs.Fields.{fields_of_line};

use std::alloc::Global;
use vx_scheme::{List, NoMemory, Text};
use vx_text::cut;

/// The fields of a line.
pub type Fields = List<Text>;

/// The fields of a line: what stands between its tabs.
pub fn split(alloc: Global, line: &str) -> Result<Fields, NoMemory>
    ensures { IfOk result (λ fields. fields ≡ fields_of_line line.now) }
{
    let mut fields = Fields::new(alloc);
    let mut rest = Some(line);
    'fields: while let Some(more) = rest {
        let (field, behind) = cut(more, '\t');
        fields.push(Text::copy_of(alloc, field)?)?;
        rest = behind;
    }
    Ok(fields)
}
