ghost use Rattle.std.specs.Prelude.{◌≡◌, ◌↔◌, ℕ, List, Some, true};
ghost use Rattle.clap.specs.Words.{is_simple_and_free};
ghost use Rattle.acl_options.specs.CheckCommands.{AsksForCheck, CheckRequest, policy_command, text_command};
ghost use Rattle.acl_options.specs.ComputableChecks.{check_request_of};
ghost use Rattle.acl_options.specs.CommandLines.{AsksFor, Options, command};
ghost use Rattle.acl_options.specs.ComputableOptions.{options_of};
ghost use Rattle.acl_options.specs.ComputableTools.{tool_request_of};
ghost use Rattle.acl_options.specs.ToolCommands.{AsksForTool, ToolRequest, dead, speedway, standard};

/// A law: the options of some words are those that the words ask for.
pub fn options_are_asked_for()
    ensures { (words : List (List ℕ)) → (o : Options)
        → (options_of words ≡ Some o) ↔ AsksFor words o }
{}

/// A law: words ask for one list of options at most.
pub fn options_are_one()
    ensures { (words : List (List ℕ)) → (a : Options) → (b : Options)
        → AsksFor words a → AsksFor words b → a ≡ b }
{}

/// A law: what some words of acltool are read as is what they ask for. So they ask for one thing at most.
pub fn tool_requests_are_asked_for()
    ensures { (words : List (List ℕ)) → (r : ToolRequest)
        → (tool_request_of words ≡ Some r) ↔ AsksForTool words r }
{}

/// A law: what some words of aclcheck are read as is what they ask for. So they ask for one thing at most.
pub fn check_requests_are_asked_for()
    ensures { (words : List (List ℕ)) → (r : CheckRequest)
        → (check_request_of words ≡ Some r) ↔ AsksForCheck words r }
{}

/// A law: the commands are some of which clap states which words they take, and what it makes of them.
pub fn the_commands_are_simple()
    ensures aclgen { is_simple_and_free command ≡ true }
    ensures speedway { is_simple_and_free speedway ≡ true }
    ensures dead { is_simple_and_free dead ≡ true }
    ensures standard { is_simple_and_free standard ≡ true }
    ensures policy { is_simple_and_free policy_command ≡ true }
    ensures text { is_simple_and_free text_command ≡ true }
{}
