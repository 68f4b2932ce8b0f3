//! What the options of the program set, and what the definitions of its meaning leave to be chosen.
#![tactic(auto)]

ghost use Rattle.std.specs.Prelude.{◌≡◌, ◌≤◌, true};
ghost use Rattle.rst_settings.specs.Parts.{hands_directive, hands_role, is_role_line, names_directive, names_role, no_parts};
ghost use Rattle.rst_settings.specs.Threshold.{threshold_number, is_reached};
ghost use Rattle.rst_settings.specs.declared.Threshold.TheVariants.{Warning, Severe, Never};

/// From which level of system messages on something is done (Configuration, `report_level`, `halt_level`,
/// `exit_status_level`).
#[derive(Clone, Copy, Debug, PartialEq, Eq)]
pub enum Threshold {
    Info,
    Warning,
    Error,
    Severe,
    /// At no level.
    Never,
}

impl Threshold {
    /// The number of its level: 1 to 4, and 5 for none.
    fn number(self) -> u8
        ensures { result ≡ threshold_number self }
    {
        match self {
            Threshold::Info => 1,
            Threshold::Warning => 2,
            Threshold::Error => 3,
            Threshold::Severe => 4,
            Threshold::Never => 5,
        }
    }

    /// Whether a level, by its number from 1 to 4, is at or above it; 0 stands for no message.
    pub fn is_reached(self, level: u8) -> bool
        ensures { result ≡ is_reached self level }
    {
        self.number() <= level
    }
}

/// The parts of the wider profile: what is read otherwise than in the base, each where it is asked for; and the directives and roles that
/// are handed back: where a text has one, its source stands in the tree.
#[derive(Clone, Copy, Debug, PartialEq, Eq)]
pub struct Parts {
    /// The name of a field holds no unescaped colon directly before a backquote: there, a role ends.
    pub marks: bool,
    /// An e-mail address in a text is a reference.
    pub mail: bool,
    /// The names of roles are known in any case of their letters, and there are more roles.
    pub roles: bool,
    /// There are more directives.
    pub directives: bool,
    /// What follows the first line of a directive after a blank line is its content.
    pub unmarked: bool,
    /// Keywords of revision control in bibliographic fields are replaced.
    pub keywords: bool,
    /// The names of the directives and roles that are handed back, if there are any. Each name is a line; that of a role has a colon before it,
    /// and a colon alone is the default role.
    /// They are compared without regard to the case of letters of ASCII.
    pub handed: Option<&'static str>,
}

impl Parts {
    /// No part is asked for, and no name is handed back.
    pub const NONE: Parts = Parts {
        marks: false,
        mail: false,
        roles: false,
        directives: false,
        unmarked: false,
        keywords: false,
        handed: None,
    };
    /// Every part is asked for, and no name is handed back.
    pub const ALL: Parts = Parts {
        marks: true,
        mail: true,
        roles: true,
        directives: true,
        unmarked: true,
        keywords: true,
        handed: None,
    };

    /// Whether a directive of this name is handed back.
    pub fn hands_directive(self, name: &str) -> bool
        ensures { result ≡ hands_directive self name.now }
    {
        match self.handed {
            Some(names) => names_directive(names, name),
            None => false,
        }
    }

    /// Whether a role of this name is handed back.
    pub fn hands_role(self, name: &str) -> bool
        ensures { result ≡ hands_role self name.now }
    {
        match self.handed {
            Some(names) => names_role(names, name),
            None => false,
        }
    }
}

/// Whether a directive is among names.
fn names_directive(names: &str, name: &str) -> bool
    ensures { result ≡ names_directive names.now name.now }
{
    names
        .split('\n')
        .any(|line| line.eq_ignore_ascii_case(name))
}

/// Whether a role is among names.
fn names_role(names: &str, name: &str) -> bool
    ensures { result ≡ names_role names.now name.now }
{
    names.split('\n').any(|line| is_role_line(line, name))
}

/// Whether a line is a colon and the name of a role.
fn is_role_line(line: &str, name: &str) -> bool
    ensures { result ≡ is_role_line line.now name.now }
{
    let line = line.as_bytes();
    0 < line.len() && line[0] == b':' && line[1..].eq_ignore_ascii_case(name.as_bytes())
}

/// The settings of a run (Configuration, 'General').
#[derive(Clone, Copy, Debug, PartialEq, Eq)]
pub struct Settings {
    /// From which level on messages are reported.
    pub report: Threshold,
    /// From which level on a message halts the run.
    pub halt: Threshold,
    /// From which level on the exit status gives the highest level.
    pub exit: Threshold,
    /// Whether a lone section's title becomes the document's.
    pub title: bool,
    /// Whether a leading field list becomes bibliographic elements.
    pub info: bool,
    /// The tab width in columns.
    pub tab: u8,
    /// The most characters that a line may have.
    pub limit: usize,
    /// The parts of the wider profile that are asked for.
    pub parts: Parts,
    pub ghost tab_from: { 1 ≤ tab },
    pub ghost tab_to: { tab ≤ 99 },
}

impl Settings {
    /// The settings of a run with no options: WARNINGs and above are reported, a SEVERE message halts, the status gives
    /// no level, titles and bibliographic fields are looked for, tabs are 8 columns wide, lines have at most 10,000
    /// characters, and no part of the wider profile is asked for.
    pub fn usual() -> Settings
        ensures levels { (result.report ≡ Warning) × (result.halt ≡ Severe) × (result.exit ≡ Never) }
        ensures transforms { (result.title ≡ true) × (result.info ≡ true) }
        ensures lines { (result.tab ≡ 8) × (result.limit ≡ 10000) }
        ensures parts { result.parts ≡ no_parts }
    {
        Settings {
            report: Threshold::Warning,
            halt: Threshold::Severe,
            exit: Threshold::Never,
            title: true,
            info: true,
            tab: 8,
            limit: 10_000,
            parts: Parts::NONE,
        }
    }
}
