// A sheet filled with records and pairs.
ghost use Rattle.std.specs.Prelude.{◌≡◌};
ghost use Rattle.std.specs.List.{fold};
ghost use Rattle.sheet.specs.Views.{meaning_of};
ghost use Rattle.bridge.specs.Filled.{with_record, with_pair, filling};

use sheet::meaning::Sheet;

fn enter_all<S: Sheet>(sheet: &mut S, records: &[u8])
    ensures { meaning_of S.Sheet sheet.new ≡ fold with_record (meaning_of S.Sheet sheet.old) records.now }
{
    for u in records {
        let _ = sheet.enter(*u);
    }
}

fn mark_all<S: Sheet>(sheet: &mut S, pairs: &[[u8; 2]])
    ensures { meaning_of S.Sheet sheet.new ≡ fold with_pair (meaning_of S.Sheet sheet.old) pairs.now }
{
    for pair in pairs {
        let _ = sheet.mark(pair[0], pair[1]);
    }
}

// The sheet with the records standing and the pairs marked. What it declines is left out.
pub(crate) fn filled<S: Sheet>(mut sheet: S, records: &[u8], pairs: &[[u8; 2]]) -> S
    ensures { meaning_of S.Sheet result ≡ filling (meaning_of S.Sheet sheet) records.now pairs.now }
{
    enter_all(&mut sheet, records);
    mark_all(&mut sheet, pairs);
    sheet
}
