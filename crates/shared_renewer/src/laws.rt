ghost use Rattle.std.specs.Prelude.{◌≡◌, ◌↔◌, true};
ghost use Rattle.client_link.specs.declared.target.LinkCall.{LinkCall};
ghost use Rattle.client_proto.specs.declared.config.ClientConfig.{ClientConfig};
ghost use Rattle.shared_renewer.specs.Failures.{IsFailed, is_failed};

/// A law: the calls that are counted as failed are those whose reply is refused or bad.
pub fn failed_calls_are_refused_or_bad()
    ensures { (config : ClientConfig) (call : LinkCall) → (is_failed config call ≡ true) ↔ IsFailed config call }
{}
