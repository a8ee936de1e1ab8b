ghost use Rattle.std.specs.Prelude.{◌≡◌, ◌≤◌};
ghost use Rattle.hpb_rules.specs.Answer.{is_reply_new};
ghost use Rattle.hpb_rules.specs.declared.limits.TheConstants.{MOST_COMMANDS};

use hpb_rules::Reply;

/// Whether a reply accepts a command as the next one after `count`.
pub(crate) fn is_new(count: u32, reply: Reply) -> bool
    requires { count ≤ MOST_COMMANDS }
    ensures { result ≡ is_reply_new count reply }
{
    match reply {
        Reply::Ok(number) => number == count + 1,
        Reply::Refused(_) => false,
    }
}
