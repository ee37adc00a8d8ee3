// Rules 13 to 15: revision and period of the head, and the descriptions of lines.
ghost use Rattle.std.specs.Prelude.{◌≡◌};
ghost use Rattle.deposit.specs.Deposit.{head_of, line_of};
ghost use Rattle.rules.specs.Tests.{revision_kept, period_kept, description_kept};

use deposit::rows::{HeadRow, LineRow};

pub(crate) fn revision_kept(head: HeadRow<'_>) -> bool
    ensures { result ≡ revision_kept (head_of head.entry) }
{
    let HeadRow {
        created,
        modified,
        ..
    } = head;
    if head.revision == 0 {
        head.modification == 1 && modified.is_none_or(|modified| modified == created)
    } else {
        head.modification == 2 && modified.is_some_and(|modified| modified.is_later_than(created))
    }
}

pub(crate) fn period_kept(head: HeadRow<'_>) -> bool
    ensures { result ≡ period_kept (head_of head.entry) }
{
    head.end.is_none_or(|end| head.start <= end)
}

pub(crate) fn description_kept(line: LineRow<'_>) -> bool
    ensures { result ≡ description_kept (line_of line.entry) }
{
    !line.outbound.is_empty() || !line.inbound.is_empty()
}
