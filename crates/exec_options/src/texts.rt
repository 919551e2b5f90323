//! The texts at the ends of `--help`, and the version. No line is longer than 80 columns.

/// The version of the program.
pub const VERSION: &str = "0.2.0";

/// The end of the program's help: the commands that `run` and `serve` read, and a reference to the manual.
pub const COMMANDS: &str =
    "Commands of run and serve, a JSON object a line, each answered by a reply line.
Keys in brackets are optional.
  op          keys                                    effect
  register    id, provider, type [params]             adds a resource
  unregister  id                                      removes a resource
  params      id, params                              replaces its parameters
  exec        id, action [timeout, level, expect]     queues an action
  recur       id, interval [timeout, level, expect]   adds a recurring monitor
  cancel      id, interval                            removes such a monitor
  withdraw    id, call                                removes a queued action
  forget      id                                      clears its history
  list                                                lists the resources
  info        id                                      shows a resource
  history     id                                      shows its last results
  drain       [limit]                                 runs all queued actions
  watch       [limit]                                 runs agents until a limit
  meta        provider, type [limit]                  shows an agent's metadata
  tidy                                                writes a snapshot
Commands of serve only:
  status                                              shows all resources
  version                                             shows the version
  leave                                               ends when no agent runs
serve also repeats the key tag of a line in its reply and in its results.

Example:
  echo '{\"op\":\"list\"}' | ocfexec run --memory

Commands, replies, refusals, options and statuses: man ocfexec.";

/// The end of the help of `run`.
pub const RUN: &str = "Give exactly one of --journal and --memory. The files part-a and part-b are
created in DIR, which must exist. The commands: ocfexec --help.

Examples:
  echo '{\"op\":\"list\"}' | ocfexec run --memory
  ocfexec run --strict --journal /var/lib/ocfexec < commands || echo check it";

/// The end of the help of `serve`.
pub const SERVE: &str = "Give exactly one of --journal and --memory. The files part-a and part-b are
created in DIR, which must exist. The commands: ocfexec --help.
It writes a line with the key ready before it reads commands. Each result is a
line of its own, and only these lines have the key outcome; drain and watch are
not needed.

Example:
  ocfexec serve --journal /var/lib/ocfexec";

/// The end of the help of `show`.
pub const SHOW: &str =
    "The journal may be in use; it is not changed. Without --journal it is that of
the environment variable OCFEXEC_JOURNAL, or else /var/lib/ocfexec.

Examples:
  ocfexec show
  ocfexec show --journal /srv/journal";

/// The end of the help of `status`.
pub const STATUS: &str =
    "The journal may be in use; it is not changed. Without --journal it is that of
the environment variable OCFEXEC_JOURNAL, or else /var/lib/ocfexec.

Examples:
  ocfexec status
  ocfexec status web --logs /var/log/ocfexec
  ocfexec status --exit-code > /dev/null || echo check the resources";

/// The end of the help of `log`.
pub const LOG: &str = "The journal may be in use; it is not changed. Without --journal it is that of
the environment variable OCFEXEC_JOURNAL, or else /var/lib/ocfexec.
A TIME is a moment, as 2026-11-27 or 2026-11-27T06:30, in UTC unless it has an
offset, as 2026-11-27T06:30:00+01:00; or a span before now: 30s, 10m, 2h or 1d.

Examples:
  ocfexec log web --since 2h
  ocfexec log --failed -n 20
  ocfexec log --journal /srv/journal --salvage";

/// The end of the help of `metrics`.
pub const METRICS: &str =
    "The journal may be in use; it is not changed. Without --journal it is that of
the environment variable OCFEXEC_JOURNAL, or else /var/lib/ocfexec.
The output is in the text format of Prometheus, for a textfile collector; ages
are those at the time of the call.

Examples:
  ocfexec metrics
  ocfexec metrics > ocfexec.prom.new && mv ocfexec.prom.new ocfexec.prom";

/// The end of the help of `once`.
pub const ONCE: &str =
    "The agent writes to the program's standard output and standard error. The exit
status is that of the agent, 124 after its timeout, 125 if it was not run, and
128 plus the number of a signal that ended it. Nothing is recorded: do not use
it for a resource that an executor runs, except with --of, which is refused
while an action of the resource runs, unless --beside is given.
Without --journal the journal of --of is that of the environment variable
OCFEXEC_JOURNAL, or else /var/lib/ocfexec.

Examples:
  ocfexec once heartbeat:Dummy meta-data
  ocfexec once heartbeat:nginx validate-all configfile=/etc/nginx/nginx.conf
  ocfexec once --of web monitor --level 10";
