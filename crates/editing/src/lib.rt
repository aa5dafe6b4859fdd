// A model held open: opened, edited and answered. Of a model handed over the constants are lent, and the parameter rows and the columns
// present lent and changed in place; of one in an area all of it lies in the area's bytes.
#![tactic(auto)]

ghost use Rattle.layered.specs.Shown.{answer_shown};
ghost use Rattle.editing.specs.Shown.{opened_shown, edited_shown, made_shown};
ghost use Rattle.editing.specs.Calls.{OpenModelCall, EditCall, AnswerModelCall};

use columns::ColumnSet;
use format::{Refusal, judge_model};
use layered::{Answer, offered_rank};
use models::LentModel;

mod area;
mod edit;

pub use area::{answer_area, edit_area, judge_area, open_area};
pub use edit::{Edit, name_edit};

// A layered model opened: all its columns are present. Numbers are judged, and dropped: each place is a parameter of its own.
pub fn open_model(model: &LentModel<'_>) -> Result<ColumnSet, Refusal>
    ensures { OpenModelCall model.now (opened_shown result) }
{
    judge_model(model)?;
    Ok(ColumnSet::below(model.n))
}

// An edit of an open model. Where it is refused, what is held is as it was.
pub fn edit_model(
    p: u32,
    n: usize,
    a: usize,
    b: usize,
    constants: &[u16],
    parameters: &mut [u64],
    present: &mut ColumnSet,
    edit: Edit,
) -> Result<(), Refusal>
    ensures { EditCall p n a b constants.now parameters.old present.old edit (edited_shown present.new result) parameters.new }
{
    *present = make_edit(p, n, a, b, constants, parameters, *present, edit)?;
    Ok(())
}

// The rows changed by an edit, and the columns then present, where it is not refused.
fn make_edit(
    p: u32,
    n: usize,
    a: usize,
    b: usize,
    constants: &[u16],
    parameters: &mut [u64],
    present: ColumnSet,
    edit: Edit,
) -> Result<ColumnSet, Refusal>
    ensures { EditCall p n a b constants.now parameters.old present edit (made_shown present result) parameters.new }
{
    // an open model has no numbers
    judge_model(&LentModel::unnumbered(p, n, a, b, constants, parameters))?;
    edit::judge_edit(n, b, present, edit)?;
    edit::change_rows(parameters, edit);
    Ok(edit::changed_columns(present, edit))
}

// The answer to an open model: that of the model over the columns present.
pub fn open_answer(model: &LentModel<'_>, present: ColumnSet) -> Result<Answer, Refusal>
    ensures { AnswerModelCall model.now present (answer_shown result) }
{
    offered_rank(model, present)
}
