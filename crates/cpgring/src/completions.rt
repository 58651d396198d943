//! What shells need to complete command lines: the texts of `cpgring completions SHELL`.
//!
//! Proved: which shell is given which text.

ghost use Rattle.std.specs.Prelude.{◌≡◌, option_map};
ghost use Rattle.cpgring.specs.Completions.{completion_of};

/// For bash: subcommands, options and files.
pub const BASH: &str = r#"# cpgring completions bash > /etc/bash_completion.d/cpgring
_cpgring() {
    local word=${COMP_WORDS[COMP_CWORD]} words=
    local ring='--ring --nodes --places --hops'
    if [ "$COMP_CWORD" -eq 1 ]; then
        words='judge why accept admit step draw run shell completions --help --version'
    else
        case ${COMP_WORDS[1]} in
            judge) words='--json --only --group --connection --places -v --verbose' ;;
            why) words='--all --connection --to --json -v --verbose' ;;
            accept) words='--json -v --verbose' ;;
            admit) words='--conf --names --passwd --group --json --echo -v --verbose' ;;
            step) words="$ring --json --numbers --echo --why --to --checked -v --verbose" ;;
            draw) words="$ring --text --rows --frames-only -v --verbose" ;;
            run) words="$ring --lose --repeat --seed --json --wait --echo --trace --why --to --checked -v --verbose" ;;
            shell) words="$ring --lose --repeat --seed --json --wait --echo --trace --checked -v --verbose" ;;
            completions) words='bash zsh fish' ;;
        esac
        words="$words --help"
    fi
    # `--only=KIND` is three words here
    local before=${COMP_WORDS[COMP_CWORD - 1]}
    if [ "$word" = = ]; then word= words=; elif [ "$before" = = ]; then before=${COMP_WORDS[COMP_CWORD - 2]} words=; fi
    if [ "$before" = --only ]; then
        COMPREPLY=($(compgen -W 'denied verdicts messages changes rules' -- "$word"))
        return
    fi
    COMPREPLY=($(compgen -W "$words" -- "$word"))
    if [ "$COMP_CWORD" -gt 1 ] && [ "${word#-}" = "$word" ]; then COMPREPLY+=($(compgen -f -- "$word")); fi
}
complete -o filenames -F _cpgring cpgring
"#;

/// For zsh: subcommands, options and files.
pub const ZSH: &str = r#"#compdef cpgring
# cpgring completions zsh > "${fpath[1]}/_cpgring"
_cpgring() {
    local -a ring=('--ring=:number' '--nodes=:number' '--places=:number' '--hops=:number')
    local -a loss=('--lose=:number' '--repeat=:number' '--seed=:number')
    local -a more=('-v' '--verbose' '--help' '*:file:_files')
    if ((CURRENT == 2)); then
        compadd judge why accept admit step draw run shell completions --help --version
        return
    fi
    local kind=${words[2]}
    shift words
    ((CURRENT--))
    case $kind in
        judge) _arguments '--json' '--only=:kind:(denied verdicts messages changes rules)' '--group=:group' \
            '--connection=:connection' '--places=:places' $more ;;
        why) _arguments '--all' '--connection=:connection' '--to=:connection' '--json' $more ;;
        accept) _arguments '--json' $more ;;
        admit) _arguments '--conf=:file:_files' '--names=:file:_files' '--passwd=:file:_files' '--group=:file:_files' \
            '--json' '--echo' '-v' '--verbose' '--help' ;;
        step) _arguments $ring '--json' '--numbers' '--echo' '--why=:place' '--to=:connection' '--checked' $more ;;
        draw) _arguments $ring '--text' '--rows=:rows' '--frames-only' $more ;;
        run) _arguments $ring $loss '--json' '--wait=:milliseconds' '--echo' '--trace=:file:_files' '--why=:place' \
            '--to=:connection' '--checked' $more ;;
        shell) _arguments $ring $loss '--json' '--wait=:milliseconds' '--echo' '--trace=:file:_files' '--checked' \
            '-v' '--verbose' '--help' ;;
        completions) compadd bash zsh fish ;;
    esac
}
_cpgring "$@"
"#;

/// For fish: subcommands and options.
pub const FISH: &str = r#"# cpgring completions fish > ~/.config/fish/completions/cpgring.fish
complete -c cpgring -n __fish_use_subcommand -f -a 'judge why accept admit step draw run shell completions'
complete -c cpgring -l help
complete -c cpgring -n __fish_use_subcommand -l version
complete -c cpgring -n '__fish_seen_subcommand_from judge why accept admit step run shell' -l json
complete -c cpgring -n '__fish_seen_subcommand_from judge why accept admit step draw run shell' -s v -l verbose
complete -c cpgring -n '__fish_seen_subcommand_from judge' -l only -x -a 'denied verdicts messages changes rules'
complete -c cpgring -n '__fish_seen_subcommand_from judge' -l group -x
complete -c cpgring -n '__fish_seen_subcommand_from judge step draw run shell' -l places -x
complete -c cpgring -n '__fish_seen_subcommand_from judge why' -l connection -x
complete -c cpgring -n '__fish_seen_subcommand_from why' -l all
complete -c cpgring -n '__fish_seen_subcommand_from admit' -l conf -r
complete -c cpgring -n '__fish_seen_subcommand_from admit' -l names -r
complete -c cpgring -n '__fish_seen_subcommand_from admit' -l passwd -r
complete -c cpgring -n '__fish_seen_subcommand_from admit' -l group -r
complete -c cpgring -n '__fish_seen_subcommand_from step draw run shell' -l ring -x
complete -c cpgring -n '__fish_seen_subcommand_from step draw run shell' -l nodes -x
complete -c cpgring -n '__fish_seen_subcommand_from step draw run shell' -l hops -x
complete -c cpgring -n '__fish_seen_subcommand_from step' -l numbers
complete -c cpgring -n '__fish_seen_subcommand_from draw' -l text
complete -c cpgring -n '__fish_seen_subcommand_from draw' -l rows -x
complete -c cpgring -n '__fish_seen_subcommand_from draw' -l frames-only
complete -c cpgring -n '__fish_seen_subcommand_from step run' -l why -x
complete -c cpgring -n '__fish_seen_subcommand_from why step run' -l to -x
complete -c cpgring -n '__fish_seen_subcommand_from run shell' -l lose -x
complete -c cpgring -n '__fish_seen_subcommand_from run shell' -l repeat -x
complete -c cpgring -n '__fish_seen_subcommand_from run shell' -l seed -x
complete -c cpgring -n '__fish_seen_subcommand_from run shell' -l wait -x
complete -c cpgring -n '__fish_seen_subcommand_from admit step run shell' -l echo
complete -c cpgring -n '__fish_seen_subcommand_from run shell' -l trace -r
complete -c cpgring -n '__fish_seen_subcommand_from step run shell' -l checked
complete -c cpgring -n '__fish_seen_subcommand_from completions' -f -a 'bash zsh fish'
"#;

/// The text of a shell, where there is one.
pub fn completion_of(shell: &str) -> Option<&'static str>
    ensures { option_map (λ text. text.now) result ≡ completion_of shell.now }
{
    match shell {
        "bash" => Some(BASH),
        "zsh" => Some(ZSH),
        "fish" => Some(FISH),
        _ => None,
    }
}
