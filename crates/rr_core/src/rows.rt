//! The rows of the instances that the facts name.

ghost use Rattle.std.specs.Prelude.{◌≡◌, ◌<◌, ◌≤◌, ◌==◌, IsTrue, false, length, None, Some, MatchOption, IfErr, OnOk};
ghost use Rattle.std.specs.Option.{option_map_or};
ghost use Rattle.std.specs.List.{list_any};
ghost use Rattle.rr_types.specs.Registry.{is_same_request};
ghost use Rattle.rr_model.specs.NodeState.{row_of, decided_command};

use rr_state::Row;
use rr_types::{Instance, RequestNo};

/// The row of an instance.
pub fn find_row(rows: &[Row], instance: Instance) -> Option<&Row>
    ensures { MatchOption result (row_of rows.now instance ≡ None) (λ r. row_of rows.now instance ≡ Some r.now) }
{
    for row in rows {
        if row.instance == instance {
            return Some(row);
        }
    }
    None
}

/// Whether the instance of some row has decided a command with this request number.
pub fn has_decided_request(rows: &[Row], request: RequestNo) -> bool
    ensures { result ≡ list_any (λ r. option_map_or (λ v. is_same_request v.request request) (decided_command r) false) rows.now }
{
    for row in rows {
        if let Some(command) = row.decided_command() {
            if command.request.is_same(request) {
                return true;
            }
        }
    }
    false
}
