ghost use Rattle.std.specs.Prelude.{◌≡◌, ◌+◌, ◌*◌, ◌≤◌, ◌++◌, length};
ghost use Rattle.card.specs.Cards.{max_section_rows, rows_of};
ghost use Rattle.card_file.specs.Files.{row_size, rows_bytes, section_bytes};

use card::states::FinishedCard;
use code::refusal::Section;

// How many bytes a row takes.
pub(crate) const ROW_SIZE: usize = 8;

// How many bytes the rows of a section take, with their count.
fn section_size(rows: &[u64]) -> usize
    requires { length rows.now ≤ max_section_rows }
    ensures { result ≡ 1 + row_size * length rows.now }
{
    1 + ROW_SIZE * rows.len()
}

// Writes the three sections into memory of just their size.
pub(crate) fn write_sections(card: &FinishedCard, out: &mut [u8])
    requires { length out.old ≡ 3 + row_size * length (rows_of card.now) }
    ensures { out.new ≡ section_bytes card.now.group ++ (section_bytes card.now.transform ++ section_bytes card.now.coset) }
{
    let group = card.section_rows(Section::Group);
    let transform = card.section_rows(Section::Transform);
    let (first, others) = out.split_at_mut(section_size(group));
    let (second, third) = others.split_at_mut(section_size(transform));
    write_section(first, group);
    write_section(second, transform);
    write_section(third, card.section_rows(Section::Coset));
}

// Writes a count byte and rows into memory of just their size.
fn write_section(out: &mut [u8], rows: &[u64])
    requires few { length rows.now ≤ max_section_rows }
    requires size { length out.old ≡ 1 + row_size * length rows.now }
    ensures { out.new ≡ section_bytes rows.now }
{
    out[0] = rows.len() as u8;
    write_rows(&mut out[1..], rows);
}

// Writes each row as eight bytes.
fn write_rows(out: &mut [u8], rows: &[u64])
    requires { length out.old ≡ row_size * length rows.now }
    ensures { out.new ≡ rows_bytes rows.now }
{
    // After `out.chunks_exact_mut(ROW_SIZE).zip(rows)` a proof knows only how long `out` is.
    for (i, row) in rows.iter().enumerate() {
        let at = ROW_SIZE * i;
        out[at..at + ROW_SIZE].copy_from_slice(&row.to_le_bytes());
    }
}
