//! The page of a domain without its data. It is made by `scripts/make_shell.py` from the files of `pages/`, which say what it does.

use crate::page::Shell;

/// What is the same in the page of each domain.
pub fn page_shell() -> Shell<'static> {
    Shell {
        before: BEFORE,
        behind: BEHIND,
    }
}

/// What stands before the data.
const BEFORE: &str = "\
<!DOCTYPE html>\n\
<html lang=\"en\">\n\
<head>\n\
<meta charset=\"utf-8\">\n\
<meta http-equiv=\"Content-Security-Policy\" content=\"default-src 'none'; style-src 'sha256-hGBoFaj6LxwtcBiL14NZpebgQF7cTQ7CLXG9m7uzWUY='; script-src 'sha256-ARGfUv/ty7pMC5dN9A4g/6pg3IBz/V8BAQPYH8XtkvI='\">\n\
<meta name=\"viewport\" content=\"width=device-width, initial-scale=1\">\n\
<title>Routing domain</title>\n\
<style>\n\
/* Colours are named by what they say, and each has a contrast of 4.5 at least with the ground. Paper is always light. */\n\
:root {\n\
\x20 --ground: #ffffff;\n\
\x20 --panel: #f4f6f8;\n\
\x20 --line: #cfd6de;\n\
\x20 --wire: #8a95a1;\n\
\x20 --text: #1a2027;\n\
\x20 --quiet: #55606b;\n\
\x20 --accent: #0b57d0;\n\
\x20 --changed: #955000;\n\
\x20 --changed-ground: #fdf0dc;\n\
\x20 --lost: #b3261e;\n\
\x20 --lost-ground: #fde7e5;\n\
\x20 --still: #17693a;\n\
\x20 color-scheme: light;\n\
}\n\
\n\
@media screen {\n\
\x20 :root[data-theme=\"dark\"] {\n\
\x20   --ground: #12161b;\n\
\x20   --panel: #1b2128;\n\
\x20   --line: #37414c;\n\
\x20   --wire: #6d7986;\n\
\x20   --text: #e6eaef;\n\
\x20   --quiet: #a5b0bb;\n\
\x20   --accent: #8ab4f8;\n\
\x20   --changed: #ffb766;\n\
\x20   --changed-ground: #3a2c17;\n\
\x20   --lost: #ff9088;\n\
\x20   --lost-ground: #421f1d;\n\
\x20   --still: #74d596;\n\
\x20   color-scheme: dark;\n\
\x20 }\n\
}\n\
\n\
* { box-sizing: border-box; }\n\
\n\
body {\n\
\x20 margin: 0;\n\
\x20 background: var(--ground);\n\
\x20 color: var(--text);\n\
\x20 font: 15px/1.45 system-ui, -apple-system, \"Segoe UI\", \"Liberation Sans\", sans-serif;\n\
}\n\
\n\
h1 { margin: 0; font-size: 1.25rem; overflow-wrap: anywhere; }\n\
h2 { margin: 0 0 0.4rem; font-size: 1.05rem; }\n\
p { margin: 0.3rem 0; }\n\
pre {\n\
\x20 margin: 0.4rem 0;\n\
\x20 padding: 0.5rem;\n\
\x20 background: var(--ground);\n\
\x20 border: 1px solid var(--line);\n\
\x20 border-radius: 4px;\n\
\x20 font: 13px/1.4 ui-monospace, \"Liberation Mono\", monospace;\n\
\x20 white-space: pre-wrap;\n\
\x20 overflow-wrap: anywhere;\n\
}\n\
\n\
:focus-visible { outline: 2px solid var(--accent); outline-offset: 2px; }\n\
.unseen, .skip:not(:focus) { position: absolute; width: 1px; height: 1px; overflow: hidden; clip-path: inset(50%); }\n\
\n\
button, select, input {\n\
\x20 padding: 0.2rem 0.6rem;\n\
\x20 border: 1px solid var(--wire);\n\
\x20 border-radius: 5px;\n\
\x20 background: var(--ground);\n\
\x20 color: var(--text);\n\
\x20 font: inherit;\n\
}\n\
button { cursor: pointer; }\n\
button:hover { border-color: var(--accent); color: var(--accent); }\n\
button[aria-pressed=\"true\"] { background: var(--accent); border-color: var(--accent); color: var(--ground); }\n\
button.go { padding: 0 0.3rem; border: 0; background: none; color: var(--accent); text-decoration: underline; text-underline-offset: 2px; }\n\
\n\
/* ---- the page */\n\
\n\
header, footer { display: flex; flex-wrap: wrap; align-items: center; gap: 0.5rem 1.5rem; padding: 0.6rem 1rem; }\n\
header { border-bottom: 1px solid var(--line); }\n\
header > :first-child { flex: 1; min-width: 14rem; }\n\
#size, footer, .hint, .more { color: var(--quiet); }\n\
footer { justify-content: space-between; border-top: 1px solid var(--line); font-size: 0.85rem; }\n\
kbd { padding: 0 0.3em; border: 1px solid var(--line); border-radius: 3px; font: inherit; }\n\
\n\
.search { position: relative; }\n\
.search input { width: 17rem; }\n\
#found { position: absolute; right: 0; z-index: 2; width: 17rem; margin: 2px 0 0; padding: 0; background: var(--ground); list-style: none; }\n\
#found:not(:empty) { border: 1px solid var(--line); border-radius: 5px; box-shadow: 0 4px 14px #0003; }\n\
#found li { padding: 0.15rem 0.6rem; }\n\
#found li:has(button) { padding: 0; }\n\
#found button { width: 100%; border: 0; text-align: left; }\n\
\n\
main { display: grid; grid-template-columns: minmax(0, 3fr) minmax(24rem, 2fr); gap: 1rem; padding: 1rem; }\n\
#picture { position: sticky; top: 1rem; align-self: start; }\n\
.tools { display: flex; flex-wrap: wrap; gap: 0.4rem 1rem; margin-bottom: 0.5rem; }\n\
.tools .zoom { margin-left: auto; }\n\
#map {\n\
\x20 display: block;\n\
\x20 width: 100%;\n\
\x20 height: calc(100vh - 14rem);\n\
\x20 min-height: 20rem;\n\
\x20 border: 1px solid var(--line);\n\
\x20 border-radius: 6px;\n\
\x20 touch-action: none;\n\
}\n\
.beside { display: grid; gap: 1rem; align-content: start; }\n\
.beside section { padding: 0.8rem; background: var(--panel); border: 1px solid var(--line); border-radius: 6px; }\n\
#legend { display: flex; flex-wrap: wrap; gap: 0.1rem 1.2rem; margin: 0.4rem 0 0; padding: 0; }\n\
#legend { color: var(--quiet); font-size: 0.85rem; list-style: none; }\n\
#legend li { display: flex; align-items: center; gap: 0.35rem; }\n\
.symbol { flex: none; width: 20px; height: 20px; }\n\
.plain { margin: 0.3rem 0; padding: 0; list-style: none; }\n\
.buttons { display: flex; flex-wrap: wrap; gap: 0.3rem; max-height: 9rem; overflow: auto; }\n\
.alarm { padding: 0.4rem 0.6rem; border: 2px solid var(--lost); background: var(--lost-ground); color: var(--text); font-weight: bold; }\n\
\n\
dl { margin: 0.4rem 0; }\n\
dl div { display: flex; justify-content: space-between; gap: 1rem; border-bottom: 1px dotted var(--line); }\n\
dd { margin: 0; font-variant-numeric: tabular-nums; font-weight: bold; }\n\
\n\
.table { max-height: 24rem; overflow: auto; border: 1px solid var(--line); border-radius: 4px; background: var(--ground); }\n\
table { width: 100%; border-collapse: collapse; font-variant-numeric: tabular-nums; }\n\
caption { padding: 0.2rem 0.5rem; color: var(--quiet); font-size: 0.85rem; text-align: left; }\n\
th, td { padding: 0.1rem 0.5rem; text-align: left; font-weight: normal; }\n\
thead th { position: sticky; top: 0; background: var(--ground); box-shadow: inset 0 -1px var(--line); }\n\
thead button { padding: 0.1rem 0; border: 0; background: none; font-weight: bold; white-space: nowrap; }\n\
thead th[aria-sort=\"ascending\"] button::after { content: \" \u{25b2}\"; }\n\
thead th[aria-sort=\"descending\"] button::after { content: \" \u{25bc}\"; }\n\
tbody tr:nth-child(even) { background: color-mix(in srgb, var(--panel) 60%, var(--ground)); }\n\
tbody tr[aria-selected=\"true\"] { box-shadow: inset 3px 0 var(--accent); background: color-mix(in srgb, var(--accent) 15%, var(--ground)); }\n\
.figure { text-align: right; }\n\
th:has(+ th.figure) { text-align: left; }\n\
.is-changed { background: var(--changed-ground); color: var(--changed); }\n\
.is-lost { background: var(--lost-ground); color: var(--lost); font-weight: bold; }\n\
.more { padding: 0 0.5rem; }\n\
details { margin: 0.3rem 0; }\n\
summary { cursor: pointer; }\n\
\n\
#failure-table .table { max-height: 17rem; }\n\
\n\
/* ---- the picture */\n\
\n\
svg text { fill: var(--text); font-size: 11px; text-anchor: middle; }\n\
.frame rect { fill: none; stroke: var(--line); }\n\
.frame text { fill: var(--quiet); text-anchor: start; }\n\
.wire { stroke: var(--wire); }\n\
.reach { stroke: transparent; stroke-width: 11; }\n\
.link { cursor: pointer; }\n\
.link:hover .wire { stroke: var(--accent); }\n\
.link.harmful .wire { stroke: var(--lost); stroke-dasharray: 7 2 2 2; }\n\
.routes .wire, .failing .wire { stroke: var(--line); }\n\
.link.failed .wire { stroke: var(--lost); stroke-dasharray: 4 4; }\n\
.cross { fill: none; stroke: var(--lost); stroke-width: 3; pointer-events: none; }\n\
.arrow { fill: none; stroke: var(--text); stroke-width: 1.6; pointer-events: none; }\n\
.arrow.changed { stroke: var(--changed); stroke-width: 3; }\n\
.arrow.before { stroke: var(--quiet); stroke-dasharray: 2 3; }\n\
\n\
.node { cursor: pointer; }\n\
.node:focus-visible { outline: none; }\n\
.node:focus-visible .shape { stroke: var(--accent); stroke-width: 4; }\n\
.shape { fill: var(--ground); stroke: var(--text); stroke-width: 1.2; }\n\
.node:hover .shape { stroke: var(--accent); }\n\
.node.harmful .shape { fill: var(--lost-ground); stroke: var(--lost); stroke-width: 2; }\n\
.node.changed .shape { fill: var(--changed-ground); stroke: var(--changed); stroke-width: 2.5; }\n\
.node.lost .shape { fill: var(--lost-ground); stroke: var(--lost); stroke-width: 3; }\n\
.node.apart .shape { stroke-dasharray: 3 3; }\n\
.node.failed .shape { fill: var(--panel); stroke: var(--lost); stroke-dasharray: 4 4; }\n\
.node.still .shape { stroke: var(--still); stroke-width: 3.5; }\n\
.node.chosen .shape { fill: var(--accent); stroke: var(--accent); }\n\
.node.chosen .number { fill: var(--ground); font-weight: bold; }\n\
.under, .count, .prefix { paint-order: stroke; stroke: var(--ground); stroke-width: 3px; }\n\
svg .under { font-size: 9px; text-anchor: start; }\n\
svg .count { fill: var(--changed); font-size: 9px; text-anchor: start; }\n\
.lost .count { fill: var(--lost); }\n\
svg .prefix { display: none; font-size: 8px; }\n\
.near .prefix { display: inline; }\n\
.folded rect { fill: var(--panel); stroke: var(--wire); }\n\
svg .folded text { font-size: 8px; }\n\
\n\
@media (max-width: 62rem) {\n\
\x20 main { grid-template-columns: minmax(0, 1fr); }\n\
\x20 #picture { position: static; }\n\
\x20 #map { height: 60vh; }\n\
}\n\
\n\
@media (forced-colors: active) {\n\
\x20 .shape, .wire, .arrow, .cross { forced-color-adjust: none; }\n\
}\n\
\n\
@media print {\n\
\x20 body { font-size: 10pt; }\n\
\x20 header .search, #theme, .tools, .keys, .more button, .hint, #failures .buttons, #detail .buttons button:not(.go), .skip { display: none; }\n\
\x20 main { display: block; padding: 0; }\n\
\x20 #picture { position: static; margin-bottom: 1rem; break-inside: avoid; }\n\
\x20 #map { height: 12cm; }\n\
\x20 .beside section { margin-bottom: 1rem; background: none; border: 0; padding: 0; }\n\
\x20 .table, .buttons { max-height: none; overflow: visible; border: 0; }\n\
\x20 thead th { position: static; }\n\
\x20 tr, li, dl div, pre { break-inside: avoid; }\n\
\x20 h2, summary, caption { break-after: avoid; }\n\
\x20 button.go { color: inherit; text-decoration: none; }\n\
\x20 * { print-color-adjust: exact; }\n\
}\n\
</style>\n\
</head>\n\
<body>\n\
<a class=\"skip\" href=\"#failures\" id=\"skip\">To the table of failures</a>\n\
<header>\n\
<div>\n\
<h1 id=\"name\">Routing domain</h1>\n\
<p id=\"size\"></p>\n\
</div>\n\
<div class=\"search\">\n\
<label for=\"search\">Search</label>\n\
<input id=\"search\" type=\"search\" autocomplete=\"off\" spellcheck=\"false\" placeholder=\"node, address, 0-1, filter\" aria-controls=\"found\">\n\
<ul id=\"found\" aria-label=\"What is found\"></ul>\n\
</div>\n\
<button type=\"button\" id=\"theme\">Dark</button>\n\
</header>\n\
<main>\n\
<section id=\"picture\" aria-label=\"Picture of the domain\">\n\
<div class=\"tools\">\n\
<label>Places\n\
<select id=\"layout\">\n\
<option value=\"map\">by links</option>\n\
<option value=\"layers\">in layers</option>\n\
<option value=\"prefix\">by prefix</option>\n\
</select>\n\
</label>\n\
<label>Fold\n\
<select id=\"fold\">\n\
<option value=\"none\">nothing</option>\n\
<option value=\"leaves\">nodes with one link</option>\n\
<option value=\"branches\">all branches</option>\n\
</select>\n\
</label>\n\
<span class=\"zoom\">\n\
<button type=\"button\" id=\"closer\" aria-label=\"Closer\">+</button>\n\
<button type=\"button\" id=\"farther\" aria-label=\"Farther\">\u{2212}</button>\n\
<button type=\"button\" id=\"whole\">Whole</button>\n\
</span>\n\
</div>\n\
<svg id=\"map\" role=\"group\" aria-label=\"Nodes and links: arrow keys lead from node to node, Enter chooses one\"></svg>\n\
<ul id=\"legend\" aria-label=\"What the picture shows\"></ul>\n\
</section>\n\
<div class=\"beside\">\n\
<section id=\"failures\" aria-labelledby=\"failures-name\" tabindex=\"-1\">\n\
<h2 id=\"failures-name\">Single failures</h2>\n\
<p class=\"buttons\" role=\"group\" aria-label=\"Of what\">\n\
<button type=\"button\" id=\"kind-links\" aria-pressed=\"true\">Links</button>\n\
<button type=\"button\" id=\"kind-nodes\" aria-pressed=\"false\">Nodes</button>\n\
</p>\n\
<div id=\"failure-table\"></div>\n\
</section>\n\
<section id=\"detail\" aria-label=\"What is chosen\"></section>\n\
<section id=\"filters\" aria-labelledby=\"filters-name\">\n\
<h2 id=\"filters-name\">Filters</h2>\n\
<div id=\"filter-list\"></div>\n\
</section>\n\
</div>\n\
</main>\n\
<footer>\n\
<p id=\"check\"></p>\n\
<p class=\"keys\">Keys: <kbd>/</kbd> search, <kbd>+</kbd> <kbd>\u{2212}</kbd> <kbd>0</kbd> closer, farther, whole, <kbd>Esc</kbd> nothing chosen,\n\
arrows and <kbd>Enter</kbd> in the picture.</p>\n\
</footer>\n\
<p id=\"said\" role=\"status\" class=\"unseen\"></p>\n\
";

/// What stands behind the data.
const BEHIND: &str = "\
<script>\n\
// The routes of a domain, and those where links or nodes have failed.\n\
//\n\
// The page has the routes at rest as the program found them. For each failure it would need as many again, so those are found here, by the links and\n\
// by what each filter makes of each distance. What the program says of a failure is compared with what is found; see `Domain.differs`.\n\
\n\
\"use strict\";\n\
\n\
// Nothing has failed.\n\
const NOTHING = { links: [], nodes: [] };\n\
\n\
class Domain {\n\
\x20 constructor(data) {\n\
\x20   this.data = data;\n\
\x20   this.size = data.size;\n\
\x20   this.links = data.links.map((known) => known.link);\n\
\x20   this.tables = data.tables;\n\
\x20   // For each filter and destination the distances that each distance comes to.\n\
\x20   this.effects = data.filters.map((filter) => byNode(filter.effects, this.size));\n\
\x20   this.neighbours = this.findNeighbours();\n\
\x20 }\n\
\n\
\x20 // Of each node its neighbours, by number: the link to each, and the filters that what the node tells it passes, in their order.\n\
\x20 findNeighbours() {\n\
\x20   const neighbours = Array.from({ length: this.size }, () => []);\n\
\x20   this.data.links.forEach(({ link: [u, w], imports, exports }, number) => {\n\
\x20     neighbours[u].push({ node: w, link: number, filters: [exports[0], imports[1]] });\n\
\x20     neighbours[w].push({ node: u, link: number, filters: [exports[1], imports[0]] });\n\
\x20   });\n\
\x20   return neighbours.map((all) => all.sort((a, b) => a.node - b.node));\n\
\x20 }\n\
\n\
\x20 // What a distance from a node comes to, under filters that follow one another. The size says that there is no route: no filter sees it.\n\
\x20 under(filters, node, distance) {\n\
\x20   for (const filter of filters) {\n\
\x20     if (filter !== null && distance < this.size) {\n\
\x20       distance = this.effects[filter][node][distance];\n\
\x20     }\n\
\x20   }\n\
\x20   return distance;\n\
\x20 }\n\
\n\
\x20 // The neighbours of each node that are left where links and nodes have failed.\n\
\x20 left(failed) {\n\
\x20   const isLeft = (node) => !failed.nodes.includes(node);\n\
\x20   return this.neighbours.map((all, node) =>\n\
\x20     isLeft(node) ? all.filter((it) => isLeft(it.node) && !failed.links.includes(it.link)) : []);\n\
\x20 }\n\
\n\
\x20 // The route of each node to a destination, as the program finds them: no filter makes a distance less, so the nearest node that is not done has its\n\
\x20 // route for good, and its neighbours are offered the way through it.\n\
\x20 routesTo(destination, neighbours) {\n\
\x20   const routes = Array.from({ length: this.size }, () => [this.size, null]);\n\
\x20   const waiting = new Set(routes.keys());\n\
\x20   routes[destination] = [0, null];\n\
\x20   while (waiting.size) {\n\
\x20     let nearest = null;\n\
\x20     for (const node of waiting) {\n\
\x20       if (nearest === null || routes[node][0] < routes[nearest][0]) {\n\
\x20         nearest = node;\n\
\x20       }\n\
\x20     }\n\
\x20     waiting.delete(nearest);\n\
\x20     if (routes[nearest][0] === this.size) {\n\
\x20       break;\n\
\x20     }\n\
\x20     for (const { node, filters } of neighbours[nearest]) {\n\
\x20       const length = this.under(filters, destination, routes[nearest][0]) + 1;\n\
\x20       if (comesBefore(length, nearest, routes[node])) {\n\
\x20         routes[node] = [length, nearest];\n\
\x20       }\n\
\x20     }\n\
\x20   }\n\
\x20   return routes;\n\
\x20 }\n\
\n\
\x20 // The route of each node to each other where something has failed: a table of tables, as the data has them.\n\
\x20 tablesWithout(failed) {\n\
\x20   const neighbours = this.left(failed);\n\
\x20   const columns = Array.from({ length: this.size }, (_, node) => this.routesTo(node, neighbours));\n\
\x20   return columns.map((_, node) => columns.map((routes) => routes[node]));\n\
\x20 }\n\
\n\
\x20 // What a failure changes. The routes of nodes that fail do not count, nor those to them.\n\
\x20 failure(failed) {\n\
\x20   const tables = this.tablesWithout(failed);\n\
\x20   const told = [...tables.keys()].filter((node) => !failed.nodes.includes(node));\n\
\x20   const still = Array(this.size).fill(this.size);\n\
\x20   const changes = [];\n\
\x20   for (const from of told) {\n\
\x20     for (const to of told) {\n\
\x20       const before = this.tables[from][to];\n\
\x20       const after = tables[from][to];\n\
\x20       if (before[0] !== after[0]) {\n\
\x20         still[to] = Math.min(still[to], before[0], after[0]);\n\
\x20       }\n\
\x20       if (before[0] !== after[0] || before[1] !== after[1]) {\n\
\x20         changes.push({ from, to, before, after });\n\
\x20       }\n\
\x20     }\n\
\x20   }\n\
\x20   return { failed, tables, changes, still, counts: this.counts(changes, still, tables) };\n\
\x20 }\n\
\n\
\x20 // The numbers that the program says of a failure, too.\n\
\x20 counts(changes, still, tables) {\n\
\x20   const farthest = Math.max(...tables.map((table) => Math.max(...table.map(([distance]) => distance))));\n\
\x20   return {\n\
\x20     changed: changes.length,\n\
\x20     lost: changes.filter((it) => this.isLost(it)).length,\n\
\x20     moved: still.filter((bound) => bound < this.size).length,\n\
\x20     rounds: Math.min(farthest + 1, this.size),\n\
\x20     still: Math.min(...still),\n\
\x20   };\n\
\x20 }\n\
\n\
\x20 isLost({ before, after }) {\n\
\x20   return before[0] < this.size && after[0] === this.size;\n\
\x20 }\n\
\n\
\x20 // What the program says of a failure, where it says something: of one link, or of one node.\n\
\x20 known({ links, nodes }) {\n\
\x20   if (links.length + nodes.length !== 1) {\n\
\x20     return null;\n\
\x20   }\n\
\x20   const { failures } = this.data;\n\
\x20   return links.length ? failures.links[links[0]] : failures.nodes[nodes[0]];\n\
\x20 }\n\
\n\
\x20 // Whether what was found of a failure is not what the program says of it. Then one of both is wrong, and the page says so.\n\
\x20 differs({ failed, counts }) {\n\
\x20   const known = this.known(failed);\n\
\x20   return known !== null && Object.keys(counts).some((word) => counts[word] !== known[word]);\n\
\x20 }\n\
\n\
\x20 // The number of the link between two nodes; -1 where there is none.\n\
\x20 linkBetween(u, w) {\n\
\x20   return this.links.findIndex(([a, b]) => (a === u && b === w) || (a === w && b === u));\n\
\x20 }\n\
\n\
\x20 // How many links there are from a node to each other, at least; Infinity where no links lead there.\n\
\x20 hopsFrom(root) {\n\
\x20   const hops = Array(this.size).fill(Infinity);\n\
\x20   const queue = [root];\n\
\x20   hops[root] = 0;\n\
\x20   for (const node of queue) {\n\
\x20     for (const next of this.neighbours[node]) {\n\
\x20       if (hops[next.node] === Infinity) {\n\
\x20         hops[next.node] = hops[node] + 1;\n\
\x20         queue.push(next.node);\n\
\x20       }\n\
\x20     }\n\
\x20   }\n\
\x20   return hops;\n\
\x20 }\n\
}\n\
\n\
// Whether a way comes before a route: it is shorter, or as short through a lesser neighbour.\n\
function comesBefore(length, hop, [distance, via]) {\n\
\x20 return length < distance || (length === distance && via !== null && hop < via);\n\
}\n\
\n\
// The distances of each node's group.\n\
function byNode(groups, size) {\n\
\x20 const found = Array(size);\n\
\x20 for (const { distances, nodes } of groups) {\n\
\x20   for (const node of nodes) {\n\
\x20     found[node] = distances;\n\
\x20   }\n\
\x20 }\n\
\x20 return found;\n\
}\n\
// The picture of a domain: where its nodes stand, and how nodes and links look.\n\
\n\
\"use strict\";\n\
\n\
const SVG = \"http://www.w3.org/2000/svg\";\n\
\n\
// How far apart the nodes of a picture are, at least; many are closer, so that a number is still read where all of them are seen.\n\
const MANY = 100;\n\
const WIDE = 64;\n\
const NARROW = 45;\n\
\n\
// How far apart the nodes of a map are pushed, as a share of that, and how much room each has on the whole.\n\
const APART = 0.85;\n\
const ROOM = 5500;\n\
\n\
// So many points of the screen a unit of the whole picture has, at most.\n\
const LARGEST = 1.4;\n\
\n\
// How often the places of a map are improved, and nodes that overlap pushed apart.\n\
const ROUNDS = 80;\n\
const PUSHES = 40;\n\
\n\
// ---- folding\n\
\n\
// The node at which each node is drawn: its own place, or that of the node into which it is folded. A node with one link is folded into its\n\
// neighbour, if that one has others; of `branches` all that are left so, too. Nodes that were opened keep theirs.\n\
function foldedInto(domain, fold, opened) {\n\
\x20 const into = [...domain.neighbours.keys()];\n\
\x20 const isShown = (node) => into[node] === node;\n\
\x20 const left = domain.neighbours.map((all) => new Set(all.map((it) => it.node)));\n\
\x20 for (let round = 0; round < (fold === \"branches\" ? domain.size : fold === \"leaves\" ? 1 : 0); round++) {\n\
\x20   const leaves = [...into.keys()].filter((node) => isShown(node) && left[node].size === 1);\n\
\x20   const folds = leaves.filter((node) => left[[...left[node]][0]].size > 1);\n\
\x20   for (const node of folds) {\n\
\x20     const [host] = left[node];\n\
\x20     into[node] = host;\n\
\x20     left[host].delete(node);\n\
\x20     left[node].clear();\n\
\x20   }\n\
\x20   if (!folds.length) {\n\
\x20     break;\n\
\x20   }\n\
\x20 }\n\
\x20 const hostOf = (node) => (isShown(node) ? node : hostOf(into[node]));\n\
\x20 return into.map((_, node) => (opened.has(hostOf(node)) ? node : hostOf(node)));\n\
}\n\
\n\
// ---- places\n\
\n\
// The parts of a domain that no link joins, of the nodes that are shown; the greatest first.\n\
function partsOf(domain, shown) {\n\
\x20 const parts = [];\n\
\x20 const seen = new Set();\n\
\x20 for (const node of shown) {\n\
\x20   if (!seen.has(node)) {\n\
\x20     const hops = domain.hopsFrom(node);\n\
\x20     const part = shown.filter((other) => hops[other] < Infinity);\n\
\x20     part.forEach((other) => seen.add(other));\n\
\x20     parts.push(part);\n\
\x20   }\n\
\x20 }\n\
\x20 return parts.sort((a, b) => b.length - a.length || a[0] - b[0]);\n\
}\n\
\n\
// Of a symmetric matrix the direction that it stretches most among those at right angles to others, and by how much.\n\
function stretched(matrix, others) {\n\
\x20 let direction = matrix.map((_, i) => Math.sin(i + 1));\n\
\x20 let length = 0;\n\
\x20 for (let round = 0; round < ROUNDS; round++) {\n\
\x20   let next = matrix.map((row) => row.reduce((sum, value, i) => sum + value * direction[i], 0));\n\
\x20   for (const other of others) {\n\
\x20     const share = next.reduce((sum, value, i) => sum + value * other[i], 0);\n\
\x20     next = next.map((value, i) => value - share * other[i]);\n\
\x20   }\n\
\x20   length = Math.hypot(...next) || 1;\n\
\x20   direction = next.map((value) => value / length);\n\
\x20 }\n\
\x20 return [direction, length];\n\
}\n\
\n\
// Places at which nodes are as far apart as the links between them are many, as well as a plane can have it: first by the two directions in which\n\
// they differ most (classical scaling), then by moving each to where the others would have it (stress majorization).\n\
function mapOf(domain, part) {\n\
\x20 const hops = part.map((node) => domain.hopsFrom(node));\n\
\x20 const far = part.map((_, i) => part.map((other) => hops[i][other]));\n\
\x20 const squares = far.map((row) => row.map((value) => value * value));\n\
\x20 const means = squares.map((row) => row.reduce((sum, value) => sum + value, 0) / row.length);\n\
\x20 const mean = means.reduce((sum, value) => sum + value, 0) / means.length;\n\
\x20 const matrix = squares.map((row, i) => row.map((value, j) => (means[i] + means[j] - mean - value) / 2));\n\
\x20 const [across, width] = stretched(matrix, []);\n\
\x20 const [down, height] = stretched(matrix, [across]);\n\
\x20 let places = part.map((_, i) => [across[i] * Math.sqrt(width), down[i] * Math.sqrt(height)]);\n\
\x20 for (let round = 0; round < ROUNDS; round++) {\n\
\x20   places = places.map((place, i) => drawnTo(places, place, far[i], i));\n\
\x20 }\n\
\x20 return turned(part, places);\n\
}\n\
\n\
// The same turned over, so that lesser nodes stand to the left and at the top.\n\
function turned(part, places) {\n\
\x20 const middle = part.reduce((sum, node) => sum + node, 0) / part.length;\n\
\x20 const signs = [0, 1].map((axis) => Math.sign(places.reduce((sum, place, i) => sum + place[axis] * (part[i] - middle), 0)) || 1);\n\
\x20 return places.map(([x, y]) => [x * signs[0], y * signs[1]]);\n\
}\n\
\n\
// Where the others would have a node: each at its distance in the direction in which the node is, and near ones count more.\n\
function drawnTo(places, [x, y], far, node) {\n\
\x20 let [sumX, sumY, weights] = [0, 0, 0];\n\
\x20 places.forEach(([otherX, otherY], other) => {\n\
\x20   if (other !== node) {\n\
\x20     const weight = 1 / (far[other] * far[other]);\n\
\x20     const apart = Math.hypot(x - otherX, y - otherY) || 0.01;\n\
\x20     sumX += weight * (otherX + (far[other] * (x - otherX)) / apart);\n\
\x20     sumY += weight * (otherY + (far[other] * (y - otherY)) / apart);\n\
\x20     weights += weight;\n\
\x20   }\n\
\x20 });\n\
\x20 return [sumX / weights, sumY / weights];\n\
}\n\
\n\
// A map at the scale of a picture: nodes are as far apart as is said for each link, or farther, so that all of them have room.\n\
function roomy(places, spacing) {\n\
\x20 const { width, height } = boxOf(places, 1);\n\
\x20 const scale = Math.max(spacing, Math.sqrt((places.length * ROOM) / (width * height)));\n\
\x20 return pushApart(places.map(([x, y]) => [x * scale, y * scale]), spacing * APART);\n\
}\n\
\n\
// Pushes nodes apart that are too close.\n\
function pushApart(places, least) {\n\
\x20 for (let round = 0; round < PUSHES; round++) {\n\
\x20   let isDone = true;\n\
\x20   for (let i = 0; i < places.length; i++) {\n\
\x20     for (let j = 0; j < i; j++) {\n\
\x20       const [dx, dy] = [places[i][0] - places[j][0] || 0.01 * (i - j), places[i][1] - places[j][1]];\n\
\x20       const apart = Math.hypot(dx, dy);\n\
\x20       if (apart < least) {\n\
\x20         const push = (least - apart) / 2 / apart;\n\
\x20         places[i] = [places[i][0] + dx * push, places[i][1] + dy * push];\n\
\x20         places[j] = [places[j][0] - dx * push, places[j][1] - dy * push];\n\
\x20         isDone = false;\n\
\x20       }\n\
\x20     }\n\
\x20   }\n\
\x20   if (isDone) {\n\
\x20     break;\n\
\x20   }\n\
\x20 }\n\
\x20 return places;\n\
}\n\
\n\
// The nodes of a part in layers: by how many links they are from the root, below which each stands near those above it that it is linked with.\n\
function layersOf(domain, part, root, spacing) {\n\
\x20 const hops = domain.hopsFrom(root);\n\
\x20 const layers = [];\n\
\x20 for (const node of part) {\n\
\x20   (layers[hops[node]] ??= []).push(node);\n\
\x20 }\n\
\x20 const column = new Map();\n\
\x20 const setColumns = (layer) => layer.forEach((node, i) => column.set(node, i - (layer.length - 1) / 2));\n\
\x20 const wish = (node, rank) => {\n\
\x20   const near = domain.neighbours[node].map((it) => it.node).filter((it) => hops[it] === rank && column.has(it));\n\
\x20   return near.length ? near.reduce((sum, it) => sum + column.get(it), 0) / near.length : column.get(node);\n\
\x20 };\n\
\x20 layers.forEach(setColumns);\n\
\x20 for (let round = 0; round < 8; round++) {\n\
\x20   const ranks = [...layers.keys()];\n\
\x20   for (const rank of round % 2 ? ranks.reverse() : ranks) {\n\
\x20     const wishes = new Map(layers[rank].map((node) => [node, wish(node, round % 2 ? rank + 1 : rank - 1)]));\n\
\x20     layers[rank].sort((a, b) => wishes.get(a) - wishes.get(b) || a - b);\n\
\x20     setColumns(layers[rank]);\n\
\x20   }\n\
\x20 }\n\
\x20 // A long layer is broken into rows that stand close.\n\
\x20 const most = Math.max(12, Math.ceil(Math.sqrt(part.length) * 1.6));\n\
\x20 const places = new Map();\n\
\x20 let y = 0;\n\
\x20 for (const layer of layers) {\n\
\x20   const rows = Math.ceil(layer.length / most);\n\
\x20   layer.forEach((node, i) => places.set(node, [(i - (layer.length - 1) / 2) * (spacing / rows), y + (i % rows) * spacing * 0.95]));\n\
\x20   y += spacing * (1.3 + 0.95 * (rows - 1));\n\
\x20 }\n\
\x20 return part.map((node) => places.get(node));\n\
}\n\
\n\
// A node's prefix as a number and a length.\n\
function parsedPrefix(text) {\n\
\x20 const [address, length] = text.split(\"/\");\n\
\x20 return [addressOf(address), Number(length)];\n\
}\n\
\n\
function addressOf(text) {\n\
\x20 return text.split(\".\").reduce((number, group) => number * 256 + Number(group), 0);\n\
}\n\
\n\
// The nodes by their prefixes: those with the same first numbers stand together, of as many numbers as there have to be for some to differ.\n\
function byPrefix(domain, shown) {\n\
\x20 const sorted = [...shown].sort((a, b) => {\n\
\x20   const [[first, short], [second, long]] = [a, b].map((node) => parsedPrefix(domain.data.prefixes[node]));\n\
\x20   return first - second || short - long || a - b;\n\
\x20 });\n\
\x20 for (const count of [1, 2, 3, 4]) {\n\
\x20   const groups = new Map();\n\
\x20   for (const node of sorted) {\n\
\x20     const name = domain.data.prefixes[node].split(\"/\")[0].split(\".\").slice(0, count).join(\".\");\n\
\x20     groups.set(name, [...(groups.get(name) ?? []), node]);\n\
\x20   }\n\
\x20   if (groups.size > 1 || count === 4) {\n\
\x20     return [...groups].map(([name, nodes]) => ({ name: count < 4 ? `${name}.` : name, nodes }));\n\
\x20   }\n\
\x20 }\n\
}\n\
\n\
// Some nodes side by side, in about as many rows as columns.\n\
function blockOf(count, spacing, columns = Math.ceil(Math.sqrt(count * 1.6))) {\n\
\x20 return Array.from({ length: count }, (_, i) => [(i % columns) * spacing, Math.floor(i / columns) * spacing]);\n\
}\n\
\n\
// Puts blocks of places side by side, from the left to the right and then below, in about the width that makes a picture of a screen's form.\n\
function packed(blocks, spacing) {\n\
\x20 const boxes = blocks.map((places) => boxOf(places, spacing));\n\
\x20 const area = boxes.reduce((sum, box) => sum + box.width * box.height, 0);\n\
\x20 const limit = Math.max(Math.sqrt(area * 1.8), ...boxes.map((box) => box.width));\n\
\x20 let [x, y, tallest] = [0, 0, 0];\n\
\x20 return blocks.map((places, number) => {\n\
\x20   const box = boxes[number];\n\
\x20   if (x > 0 && x + box.width > limit * 1.01) {\n\
\x20     [x, y, tallest] = [0, y + tallest, 0];\n\
\x20   }\n\
\x20   const moved = places.map((place) => [place[0] - box.x + x, place[1] - box.y + y]);\n\
\x20   [x, tallest] = [x + box.width, Math.max(tallest, box.height)];\n\
\x20   return moved;\n\
\x20 });\n\
}\n\
\n\
// The box around some places, with a margin.\n\
function boxOf(places, margin) {\n\
\x20 const [xs, ys] = [places.map(([x]) => x), places.map(([, y]) => y)];\n\
\x20 const [left, top] = [Math.min(...xs) - margin / 2, Math.min(...ys) - margin / 2];\n\
\x20 return { x: left, y: top, width: Math.max(...xs) + margin / 2 - left, height: Math.max(...ys) + margin / 2 - top };\n\
}\n\
\n\
// Where each node stands that is shown, and boxes with names around some of them.\n\
function layOut(domain, shown, layout, root) {\n\
\x20 const spacing = shown.length > MANY ? NARROW : WIDE;\n\
\x20 const places = new Map();\n\
\x20 if (layout === \"prefix\") {\n\
\x20   const groups = byPrefix(domain, shown);\n\
\x20   const blocks = packed(groups.map((group) => blockOf(group.nodes.length, spacing)), spacing * 1.4);\n\
\x20   groups.forEach((group, number) => group.nodes.forEach((node, i) => places.set(node, blocks[number][i])));\n\
\x20   const areAlone = groups.every((group) => group.nodes.length === 1);\n\
\x20   return { places, spacing, boxes: areAlone ? [] : groups.map((group, i) => ({ name: group.name, box: boxOf(blocks[i], spacing * 0.95) })) };\n\
\x20 }\n\
\x20 const parts = partsOf(domain, shown);\n\
\x20 const joined = parts.filter((part) => part.length > 1);\n\
\x20 const alone = parts.filter((part) => part.length === 1).flat();\n\
\x20 const blocks = joined.map((part) => {\n\
\x20   if (layout === \"layers\") {\n\
\x20     return layersOf(domain, part, part.includes(root) ? root : mostLinked(domain, part), spacing);\n\
\x20   }\n\
\x20   return roomy(mapOf(domain, part), spacing);\n\
\x20 });\n\
\x20 if (alone.length) {\n\
\x20   blocks.push(blockOf(alone.length, spacing * 0.8, Math.max(8, Math.ceil(Math.sqrt(alone.length) * 2))));\n\
\x20 }\n\
\x20 const nodes = [...joined, ...(alone.length ? [alone] : [])];\n\
\x20 packed(blocks, spacing * 1.2).forEach((block, number) => block.forEach((place, i) => places.set(nodes[number][i], place)));\n\
\x20 return { places, spacing, boxes: [] };\n\
}\n\
\n\
function mostLinked(domain, part) {\n\
\x20 return part.reduce((best, node) => (domain.neighbours[node].length > domain.neighbours[best].length ? node : best));\n\
}\n\
\n\
// ---- elements\n\
\n\
// An element of a picture with its attributes and what is in it. Texts are set as texts, so nothing of a file is read as an element.\n\
function svgElement(name, attributes = {}, ...content) {\n\
\x20 const element = document.createElementNS(SVG, name);\n\
\x20 for (const [key, value] of Object.entries(attributes)) {\n\
\x20   element.setAttribute(key, value);\n\
\x20 }\n\
\x20 for (const part of content) {\n\
\x20   if (part instanceof Node) {\n\
\x20     element.append(part);\n\
\x20   } else {\n\
\x20     element.textContent = part;\n\
\x20   }\n\
\x20 }\n\
\x20 return element;\n\
}\n\
\n\
// The outlines of nodes. Form tells what colour tells: a node whose failure cuts others off is a diamond, one that has lost a route a square.\n\
function outline(form, radius) {\n\
\x20 const r = form === \"diamond\" ? radius * 1.3 : form === \"square\" ? radius * 0.95 : radius;\n\
\x20 switch (form) {\n\
\x20   case \"diamond\":\n\
\x20     return `M0 ${-r}L${r} 0L0 ${r}L${-r} 0Z`;\n\
\x20   case \"square\":\n\
\x20     return `M${-r} ${-r}H${r}V${r}H${-r}Z`;\n\
\x20   default:\n\
\x20     return `M${-r} 0A${r} ${r} 0 1 1 ${r} 0A${r} ${r} 0 1 1 ${-r} 0Z`;\n\
\x20 }\n\
}\n\
\n\
// An arrow from one place to another, as a line with a head, which ends at the outline of a node.\n\
function arrow([x1, y1], [x2, y2], radius) {\n\
\x20 const length = Math.hypot(x2 - x1, y2 - y1) || 1;\n\
\x20 const [dx, dy] = [(x2 - x1) / length, (y2 - y1) / length];\n\
\x20 const [fromX, fromY, toX, toY] = [x1 + dx * radius, y1 + dy * radius, x2 - dx * (radius + 2), y2 - dy * (radius + 2)];\n\
\x20 const head = Math.min(7, length / 4);\n\
\x20 const side = (sign) => `${toX - dx * head + sign * dy * head * 0.6} ${toY - dy * head - sign * dx * head * 0.6}`;\n\
\x20 return `M${fromX} ${fromY}L${toX} ${toY}M${side(1)}L${toX} ${toY}L${side(-1)}`;\n\
}\n\
\n\
function cross([x, y], r) {\n\
\x20 return `M${x - r} ${y - r}L${x + r} ${y + r}M${x - r} ${y + r}L${x + r} ${y - r}`;\n\
}\n\
\n\
class Drawing {\n\
\x20 // The hooks are called with the number of a node or a link, and with the event.\n\
\x20 constructor(svg, domain, hooks) {\n\
\x20   Object.assign(this, { svg, domain, hooks, nodes: new Map(), links: new Map(), focused: null });\n\
\x20   this.followPointer();\n\
\x20   svg.addEventListener(\"keydown\", (event) => this.step(event));\n\
\x20 }\n\
\n\
\x20 // Draws the domain anew.\n\
\x20 place({ layout, fold, opened, root }) {\n\
\x20   const { domain } = this;\n\
\x20   this.into = foldedInto(domain, fold, opened);\n\
\x20   this.shown = [...domain.neighbours.keys()].filter((node) => this.into[node] === node);\n\
\x20   const { places, spacing, boxes } = layOut(domain, this.shown, layout, root);\n\
\x20   Object.assign(this, { places, radius: spacing === WIDE ? 15 : 12 });\n\
\x20   this.marks = svgElement(\"g\", { \"aria-hidden\": \"true\" });\n\
\x20   this.nodes = new Map(this.shown.map((node) => [node, this.nodeElement(node)]));\n\
\x20   this.links = new Map();\n\
\x20   domain.links.forEach(([u, w], link) => {\n\
\x20     if (this.isShown(u) && this.isShown(w)) {\n\
\x20       this.links.set(link, this.linkElement(link));\n\
\x20     }\n\
\x20   });\n\
\x20   const frames = boxes.map(({ name, box }) => this.frameElement(name, box));\n\
\x20   this.svg.replaceChildren(...frames, ...this.links.values(), this.marks, ...this.nodes.values());\n\
\x20   const corners = boxes.flatMap(({ box }) => [[box.x, box.y - 12], [box.x + box.width, box.y + box.height]]);\n\
\x20   this.whole = this.widened(boxOf([...places.values(), ...corners], spacing));\n\
\x20   this.look(this.whole);\n\
\x20   this.setFocus(this.nodes.has(this.focused) ? this.focused : this.shown[0]);\n\
\x20 }\n\
\n\
\x20 isShown(node) {\n\
\x20   return this.into[node] === node;\n\
\x20 }\n\
\n\
\x20 frameElement(name, { x, y, width, height }) {\n\
\x20   return svgElement(\"g\", { class: \"frame\" }, svgElement(\"rect\", { x, y, width, height, rx: 6 }), svgElement(\"text\", { x: x + 4, y: y - 4 }, name));\n\
\x20 }\n\
\n\
\x20 linkElement(link) {\n\
\x20   const [[x1, y1], [x2, y2]] = this.domain.links[link].map((node) => this.places.get(node));\n\
\x20   const wire = svgElement(\"line\", { x1, y1, x2, y2, class: \"wire\" });\n\
\x20   const reach = svgElement(\"line\", { x1, y1, x2, y2, class: \"reach\" });\n\
\x20   const element = svgElement(\"g\", { class: \"link\", \"data-link\": link }, wire, reach, svgElement(\"title\"));\n\
\x20   element.addEventListener(\"click\", (event) => this.hooks.link(link, event));\n\
\x20   return element;\n\
\x20 }\n\
\n\
\x20 nodeElement(node) {\n\
\x20   const [x, y] = this.places.get(node);\n\
\x20   const folded = this.into.filter((host) => host === node).length - 1;\n\
\x20   const element = svgElement(\"g\", { class: \"node\", \"data-node\": node, transform: `translate(${x} ${y})`, role: \"button\", tabindex: -1 },\n\
\x20     svgElement(\"title\"), svgElement(\"path\", { class: \"shape\" }), svgElement(\"text\", { class: \"number\", dy: \"0.35em\" }, String(node)),\n\
\x20     svgElement(\"text\", { class: \"under\", x: this.radius * 0.75, y: this.radius + 6 }),\n\
\x20     svgElement(\"text\", { class: \"count\", x: this.radius - 2, y: -this.radius + 2 }),\n\
\x20     svgElement(\"text\", { class: \"prefix\", y: -this.radius - 4 }, this.domain.data.prefixes[node]));\n\
\x20   if (folded) {\n\
\x20     const badge = svgElement(\"g\", { class: \"folded\", transform: `translate(${-this.radius} ${this.radius - 2})`, \"aria-hidden\": \"true\" },\n\
\x20       svgElement(\"title\", {}, `${folded} folded nodes: click to show them`), svgElement(\"rect\", { x: -11, y: -7, width: 22, height: 14, rx: 7 }),\n\
\x20       svgElement(\"text\", { dy: \"0.35em\" }, `+${folded}`));\n\
\x20     badge.addEventListener(\"click\", (event) => {\n\
\x20       event.stopPropagation();\n\
\x20       this.hooks.open(node);\n\
\x20     });\n\
\x20     element.append(badge);\n\
\x20   }\n\
\x20   element.addEventListener(\"click\", (event) => this.hooks.node(node, event));\n\
\x20   return element;\n\
\x20 }\n\
\n\
\x20 // How a node looks: the names of its looks, its form, what is said under it and beside it, and in words.\n\
\x20 setNode(node, { looks = [], form = \"circle\", under = \"\", count = \"\", words }) {\n\
\x20   const element = this.nodes.get(node);\n\
\x20   element.setAttribute(\"class\", [\"node\", ...looks].join(\" \"));\n\
\x20   element.querySelector(\".shape\").setAttribute(\"d\", outline(form, this.radius));\n\
\x20   element.querySelector(\".under\").textContent = under;\n\
\x20   element.querySelector(\".count\").textContent = count;\n\
\x20   element.querySelector(\"title\").textContent = words;\n\
\x20   element.setAttribute(\"aria-label\", words);\n\
\x20   element.setAttribute(\"aria-pressed\", looks.includes(\"chosen\"));\n\
\x20 }\n\
\n\
\x20 setLink(link, { looks = [], width = 1.5, words }) {\n\
\x20   const element = this.links.get(link);\n\
\x20   element.setAttribute(\"class\", [\"link\", ...looks].join(\" \"));\n\
\x20   element.querySelector(\".wire\").setAttribute(\"stroke-width\", width);\n\
\x20   element.querySelector(\"title\").textContent = words;\n\
\x20 }\n\
\n\
\x20 // Sets the marks over the links: arrows of next hops, and crosses on what has failed.\n\
\x20 setMarks({ arrows, links, nodes }) {\n\
\x20   const marks = arrows.filter(({ from, to }) => this.isShown(from) && this.isShown(to)).map(({ from, to, looks }) =>\n\
\x20     svgElement(\"path\", { class: `arrow ${looks}`, d: arrow(this.places.get(from), this.places.get(to), this.radius) }));\n\
\x20   for (const link of links.filter((it) => this.links.has(it))) {\n\
\x20     const [[x1, y1], [x2, y2]] = this.domain.links[link].map((node) => this.places.get(node));\n\
\x20     marks.push(svgElement(\"path\", { class: \"cross\", d: cross([(x1 + x2) / 2, (y1 + y2) / 2], 7) }));\n\
\x20   }\n\
\x20   for (const node of nodes.filter((it) => this.isShown(it))) {\n\
\x20     marks.push(svgElement(\"path\", { class: \"cross\", d: cross(this.places.get(node), this.radius * 1.4) }));\n\
\x20   }\n\
\x20   this.marks.replaceChildren(...marks);\n\
\x20 }\n\
\n\
\x20 // ---- looking: a part of the picture fills the window\n\
\n\
\x20 look({ x, y, width, height }) {\n\
\x20   this.window = { x, y, width, height };\n\
\x20   this.svg.setAttribute(\"viewBox\", `${x} ${y} ${width} ${height}`);\n\
\x20   this.svg.classList.toggle(\"near\", this.scale() > 1.25 && this.scale() > this.scaleOf(this.whole) * 1.05);\n\
\x20 }\n\
\n\
\x20 // A box with more around it, where a picture of few nodes would be drawn too large.\n\
\x20 widened({ x, y, width, height }) {\n\
\x20   const [more, higher] = [Math.max(0, this.svg.clientWidth / LARGEST - width), Math.max(0, this.svg.clientHeight / LARGEST - height)];\n\
\x20   return { x: x - more / 2, y: y - higher / 2, width: width + more, height: height + higher };\n\
\x20 }\n\
\n\
\x20 // How many points of the screen a unit of the picture has.\n\
\x20 scaleOf(box) {\n\
\x20   return Math.min(this.svg.clientWidth / box.width, this.svg.clientHeight / box.height) || 1;\n\
\x20 }\n\
\n\
\x20 scale() {\n\
\x20   return this.scaleOf(this.window);\n\
\x20 }\n\
\n\
\x20 // Shows more of the picture, or less, about a place of it; its middle, where none is said.\n\
\x20 zoom(factor, place) {\n\
\x20   const { x, y, width, height } = this.window;\n\
\x20   const limited = Math.min(Math.max(factor, 40 / width), (this.whole.width * 2) / width);\n\
\x20   const [atX, atY] = place ?? [x + width / 2, y + height / 2];\n\
\x20   this.look({ x: atX + (x - atX) * limited, y: atY + (y - atY) * limited, width: width * limited, height: height * limited });\n\
\x20 }\n\
\n\
\x20 // Moves the window, so that a node is in it.\n\
\x20 bringIn(node) {\n\
\x20   const [x, y] = this.places.get(this.into[node]);\n\
\x20   const { window } = this;\n\
\x20   const isIn = x > window.x && x < window.x + window.width && y > window.y && y < window.y + window.height;\n\
\x20   if (!isIn) {\n\
\x20     this.look({ ...window, x: x - window.width / 2, y: y - window.height / 2 });\n\
\x20   }\n\
\x20 }\n\
\n\
\x20 placeOf(event) {\n\
\x20   const box = this.svg.getBoundingClientRect();\n\
\x20   const scale = this.scale();\n\
\x20   const { x, y, width, height } = this.window;\n\
\x20   return [x + width / 2 + (event.clientX - box.left - box.width / 2) / scale, y + height / 2 + (event.clientY - box.top - box.height / 2) / scale];\n\
\x20 }\n\
\n\
\x20 // The wheel zooms, and a pointer that is moved while it is down moves the picture.\n\
\x20 followPointer() {\n\
\x20   const { svg } = this;\n\
\x20   let begun = null;\n\
\x20   svg.addEventListener(\"wheel\", (event) => {\n\
\x20     event.preventDefault();\n\
\x20     this.zoom(event.deltaY > 0 ? 1.2 : 1 / 1.2, this.placeOf(event));\n\
\x20   }, { passive: false });\n\
\x20   svg.addEventListener(\"pointerdown\", (event) => {\n\
\x20     begun = { x: event.clientX, y: event.clientY, window: this.window, isMoved: false };\n\
\x20   });\n\
\x20   svg.addEventListener(\"pointermove\", (event) => {\n\
\x20     const [dx, dy] = begun ? [event.clientX - begun.x, event.clientY - begun.y] : [0, 0];\n\
\x20     if (begun && (begun.isMoved || Math.hypot(dx, dy) > 4)) {\n\
\x20       begun.isMoved = true;\n\
\x20       svg.setPointerCapture(event.pointerId);\n\
\x20       this.look({ ...begun.window, x: begun.window.x - dx / this.scale(), y: begun.window.y - dy / this.scale() });\n\
\x20     }\n\
\x20   });\n\
\x20   svg.addEventListener(\"pointerup\", () => {\n\
\x20     begun = null;\n\
\x20   });\n\
\x20 }\n\
\n\
\x20 // ---- keys: one node of the picture is in the order of the page, and arrow keys lead from it to others\n\
\n\
\x20 setFocus(node) {\n\
\x20   this.nodes.get(this.focused)?.setAttribute(\"tabindex\", -1);\n\
\x20   this.focused = node;\n\
\x20   this.nodes.get(node)?.setAttribute(\"tabindex\", 0);\n\
\x20 }\n\
\n\
\x20 step(event) {\n\
\x20   const directions = { ArrowLeft: [-1, 0], ArrowRight: [1, 0], ArrowUp: [0, -1], ArrowDown: [0, 1] };\n\
\x20   if (event.key === \"Enter\" || event.key === \" \") {\n\
\x20     event.preventDefault();\n\
\x20     this.hooks.node(this.focused, event);\n\
\x20   } else if (event.key in directions) {\n\
\x20     event.preventDefault();\n\
\x20     const next = this.nearestTowards(directions[event.key]);\n\
\x20     if (next !== null) {\n\
\x20       this.setFocus(next);\n\
\x20       this.nodes.get(next).focus();\n\
\x20       this.bringIn(next);\n\
\x20     }\n\
\x20   }\n\
\x20 }\n\
\n\
\x20 // The nearest node in a direction, where what lies beside it counts more than what lies ahead.\n\
\x20 nearestTowards([dx, dy]) {\n\
\x20   const [x, y] = this.places.get(this.focused);\n\
\x20   let [found, least] = [null, Infinity];\n\
\x20   for (const [node, [toX, toY]] of this.places) {\n\
\x20     const ahead = (toX - x) * dx + (toY - y) * dy;\n\
\x20     const beside = Math.abs((toX - x) * dy - (toY - y) * dx);\n\
\x20     if (ahead > 1 && beside <= ahead * 1.5 && ahead + 2 * beside < least) {\n\
\x20       [found, least] = [node, ahead + 2 * beside];\n\
\x20     }\n\
\x20   }\n\
\x20   return found;\n\
\x20 }\n\
}\n\
// Elements of the page, and tables that are sorted by a click.\n\
\n\
\"use strict\";\n\
\n\
// So many rows of a table are shown at first: a failure may change 60,000 routes.\n\
const FIRST_ROWS = 200;\n\
\n\
function byId(id) {\n\
\x20 return document.getElementById(id);\n\
}\n\
\n\
// An element with its properties and what is in it: elements, and texts, which are set as such.\n\
function make(name, properties = {}, ...content) {\n\
\x20 const element = document.createElement(name);\n\
\x20 for (const [key, value] of Object.entries(properties)) {\n\
\x20   if (key in element) {\n\
\x20     element[key] = value;\n\
\x20   } else {\n\
\x20     element.setAttribute(key, value);\n\
\x20   }\n\
\x20 }\n\
\x20 element.append(...content.filter((part) => part !== null).map((part) => (part instanceof Node ? part : document.createTextNode(part))));\n\
\x20 return element;\n\
}\n\
\n\
function button(text, action, properties = {}) {\n\
\x20 const element = make(\"button\", { type: \"button\", ...properties }, text);\n\
\x20 element.addEventListener(\"click\", action);\n\
\x20 return element;\n\
}\n\
\n\
function counted(count, one, many = `${one}s`) {\n\
\x20 return `${count.toLocaleString(\"en\")} ${count === 1 ? one : many}`;\n\
}\n\
\n\
// A table. Each column has a name, what it shows of a row, by what it is sorted, and whether it is of numbers; `order` is the column by which it is\n\
// sorted and whether the greatest stands first, and stays so where the table is made again.\n\
class Table {\n\
\x20 constructor(caption, columns, order) {\n\
\x20   Object.assign(this, { columns, order, rows: [], limit: FIRST_ROWS, isChosen: () => false });\n\
\x20   this.body = make(\"tbody\");\n\
\x20   this.heads = columns.map(({ name, title = \"\" }, number) => make(\"th\", { scope: \"col\" }, button(name, () => this.sortBy(number), { title })));\n\
\x20   this.more = make(\"p\", { className: \"more\" });\n\
\x20   const table = make(\"table\", {}, make(\"caption\", {}, caption), make(\"thead\", {}, make(\"tr\", {}, ...this.heads)), this.body);\n\
\x20   this.element = make(\"div\", { className: \"table\" }, table, this.more);\n\
\x20 }\n\
\n\
\x20 sortBy(number) {\n\
\x20   const isSame = this.order.column === number;\n\
\x20   this.order = { column: number, isDown: isSame ? !this.order.isDown : Boolean(this.columns[number].isNumber) };\n\
\x20   this.show(this.rows);\n\
\x20 }\n\
\n\
\x20 sorted() {\n\
\x20   const { key } = this.columns[this.order.column];\n\
\x20   const sign = this.order.isDown ? -1 : 1;\n\
\x20   const compared = (a, b) => (a < b ? -1 : a > b ? 1 : 0);\n\
\x20   return this.rows.map((row, place) => [row, key(row), place])\n\
\x20     .sort((a, b) => sign * compared(a[1], b[1]) || a[2] - b[2]).map(([row]) => row);\n\
\x20 }\n\
\n\
\x20 show(rows) {\n\
\x20   this.rows = rows;\n\
\x20   this.heads.forEach((head, number) => {\n\
\x20     const { column, isDown } = this.order;\n\
\x20     head.setAttribute(\"aria-sort\", column !== number ? \"none\" : isDown ? \"descending\" : \"ascending\");\n\
\x20   });\n\
\x20   this.body.replaceChildren(...this.sorted().slice(0, this.limit).map((row) => this.rowElement(row)));\n\
\x20   this.more.hidden = rows.length <= this.limit;\n\
\x20   this.more.replaceChildren(`${FIRST_ROWS} of ${counted(rows.length, \"row\")}. `, button(\"Show all\", () => {\n\
\x20     this.limit = Infinity;\n\
\x20     this.show(this.rows);\n\
\x20   }));\n\
\x20   return this.element;\n\
\x20 }\n\
\n\
\x20 rowElement(row) {\n\
\x20   const cells = this.columns.map((column, number) => {\n\
\x20     const shown = column.show(row);\n\
\x20     const className = [column.isNumber ? \"figure\" : \"\", column.look?.(row) ?? \"\"].join(\" \").trim();\n\
\x20     return number ? make(\"td\", { className }, shown) : make(\"th\", { scope: \"row\", className }, shown);\n\
\x20   });\n\
\x20   const element = make(\"tr\", {}, ...cells);\n\
\x20   if (this.isChosen(row)) {\n\
\x20     element.setAttribute(\"aria-selected\", \"true\");\n\
\x20   }\n\
\x20   return element;\n\
\x20 }\n\
}\n\
// What is said in words: of links and routes, of failures, and of what filters do.\n\
\n\
\"use strict\";\n\
\n\
// What stands between the two ends of a link.\n\
const LINKED = \"\\u2013\";\n\
\n\
class Words {\n\
\x20 constructor(domain) {\n\
\x20   this.domain = domain;\n\
\x20 }\n\
\n\
\x20 link(link) {\n\
\x20   return this.domain.links[link].join(LINKED);\n\
\x20 }\n\
\n\
\x20 failed({ links, nodes }) {\n\
\x20   const names = [...links.map((link) => `the link ${this.link(link)}`), ...nodes.map((node) => `node ${node}`)];\n\
\x20   return [...(names.length > 1 ? [names.slice(0, -1).join(\", \")] : []), names.at(-1)].join(\" and \");\n\
\x20 }\n\
\n\
\x20 ifFails(failed) {\n\
\x20   const isOne = failed.links.length + failed.nodes.length === 1;\n\
\x20   return `If ${this.failed(failed)} ${isOne ? \"fails\" : \"fail\"}`;\n\
\x20 }\n\
\n\
\x20 // A route: how far it is, and through whom.\n\
\x20 route([distance, via]) {\n\
\x20   return distance === this.domain.size ? \"none\" : via === null ? \"here\" : `${distance} via ${via}`;\n\
\x20 }\n\
\n\
\x20 routes(before, after) {\n\
\x20   return this.isSame(before, after) ? this.route(before) : `${this.route(before)} \\u2192 ${this.route(after)}`;\n\
\x20 }\n\
\n\
\x20 isSame(before, after) {\n\
\x20   return before[0] === after[0] && before[1] === after[1];\n\
\x20 }\n\
\n\
\x20 // What a filter makes of distances, in runs of those that become as much more, or the same.\n\
\x20 effect(distances) {\n\
\x20   const { size } = this.domain;\n\
\x20   const runs = [];\n\
\x20   distances.forEach((to, from) => {\n\
\x20     const last = runs.at(-1);\n\
\x20     const isMore = last && to < size && last.to.at(-1) < size && to - from === last.to.at(-1) - (from - 1);\n\
\x20     const isAsMuch = last && to === last.to.at(-1) && (last.to.length === 1 || last.to[0] === to);\n\
\x20     if (isMore && (last.to.length === 1 || last.to[0] !== last.to.at(-1)) || isAsMuch) {\n\
\x20       last.to.push(to);\n\
\x20     } else {\n\
\x20       runs.push({ from, to: [to] });\n\
\x20     }\n\
\x20   });\n\
\x20   return runs.map(({ from, to }) => {\n\
\x20     const range = to.length === 1 ? `${from}` : `${from}\\u2013${from + to.length - 1}`;\n\
\x20     const more = to[0] - from;\n\
\x20     const isSum = to.length === 1 || to[0] !== to.at(-1);\n\
\x20     const becomes = to[0] === size ? \"rejected\" : !isSum ? `become ${to[0]}` : more === 0 ? \"kept\" : `+${more}`;\n\
\x20     return `${range} ${becomes}`;\n\
\x20   }).join(\", \");\n\
\x20 }\n\
\n\
\x20 nodes(nodes) {\n\
\x20   return nodes.length === this.domain.size ? \"all nodes\" : `${nodes.length === 1 ? \"node\" : \"nodes\"} ${ranges(nodes)}`;\n\
\x20 }\n\
}\n\
\n\
// Numbers in ascending order, those that follow one another as a range.\n\
function ranges(numbers) {\n\
\x20 const found = [];\n\
\x20 for (const number of numbers) {\n\
\x20   const last = found.at(-1);\n\
\x20   if (last && last[1] === number - 1) {\n\
\x20     last[1] = number;\n\
\x20   } else {\n\
\x20     found.push([number, number]);\n\
\x20   }\n\
\x20 }\n\
\x20 return found.map(([first, last]) => (first === last ? `${first}` : `${first}\\u2013${last}`)).join(\", \");\n\
}\n\
// The page of a domain: what is chosen in it, and what it shows of that.\n\
//\n\
// All that is chosen stands in the address behind `#`, so that a view can be sent to somebody, and the browser's way back leads to the one before.\n\
// All texts are set as texts: no byte of a script's file is ever read as an element, or run.\n\
\n\
\"use strict\";\n\
\n\
// So many things a search finds, or are named in a line, at most.\n\
const FOUND_AT_MOST = 12;\n\
\n\
// ---- what is chosen\n\
\n\
// What is chosen, as the address says it: `#fail=0-1,7&node=3` is the link between 0 and 1 and the node 7 that fail, and the node 3.\n\
function readAddress(domain, text) {\n\
\x20 const words = new URLSearchParams(text.replace(/^#/, \"\"));\n\
\x20 const isNode = (node) => Number.isInteger(node) && node >= 0 && node < domain.size;\n\
\x20 const failed = { links: [], nodes: [] };\n\
\x20 for (const word of (words.get(\"fail\") ?? \"\").split(\",\")) {\n\
\x20   const numbers = word.split(\"-\").map((it) => (/^\\d+$/.test(it) ? Number(it) : -1));\n\
\x20   const link = domain.linkBetween(...numbers);\n\
\x20   if (numbers.length === 2 && link >= 0) {\n\
\x20     failed.links.push(link);\n\
\x20   } else if (numbers.length === 1 && isNode(numbers[0])) {\n\
\x20     failed.nodes.push(numbers[0]);\n\
\x20   }\n\
\x20 }\n\
\x20 const node = /^\\d+$/.test(words.get(\"node\") ?? \"\") ? Number(words.get(\"node\")) : null;\n\
\x20 return { failed, node: isNode(node) ? node : null };\n\
}\n\
\n\
function addressOfView(domain, { failed, node }) {\n\
\x20 const fails = [...failed.links.map((link) => domain.links[link].join(\"-\")), ...failed.nodes];\n\
\x20 return [...(fails.length ? [`fail=${fails.join(\",\")}`] : []), ...(node !== null ? [`node=${node}`] : [])].join(\"&\");\n\
}\n\
\n\
// A list with a number in it, or without it where it is there.\n\
function toggled(numbers, number) {\n\
\x20 return numbers.includes(number) ? numbers.filter((it) => it !== number) : [...numbers, number];\n\
}\n\
\n\
class Page {\n\
\x20 constructor(domain, file) {\n\
\x20   Object.assign(this, { domain, file, words: new Words(domain), opened: new Set(), kind: \"links\", found: null });\n\
\x20   this.view = { failed: NOTHING, node: null };\n\
\x20   this.drawing = new Drawing(byId(\"map\"), domain, {\n\
\x20     link: (link, event) => this.fail({ links: [link], nodes: [] }, event.shiftKey),\n\
\x20     node: (node, event) => (event.shiftKey ? this.fail({ links: [], nodes: [node] }, true) : this.choose(this.view.node === node ? null : node)),\n\
\x20     open: (node) => {\n\
\x20       this.opened.add(node);\n\
\x20       this.redraw();\n\
\x20     },\n\
\x20   });\n\
\x20   this.makeTables();\n\
\x20   this.listen();\n\
\x20 }\n\
\n\
\x20 // ---- what changes the choice\n\
\n\
\x20 // Some links and nodes fail, besides those that do or in their place.\n\
\x20 fail({ links, nodes }, isBesides = false) {\n\
\x20   const { failed } = this.view;\n\
\x20   const besides = { links: links.reduce(toggled, failed.links), nodes: nodes.reduce(toggled, failed.nodes) };\n\
\x20   this.go({ ...this.view, failed: isBesides ? besides : { links, nodes } });\n\
\x20 }\n\
\n\
\x20 choose(node) {\n\
\x20   this.go({ ...this.view, node });\n\
\x20 }\n\
\n\
\x20 go(view) {\n\
\x20   const address = addressOfView(this.domain, view);\n\
\x20   if (address === addressOfView(this.domain, this.view)) {\n\
\x20     return;\n\
\x20   }\n\
\x20   history.pushState(null, \"\", `#${address}`);\n\
\x20   this.show(view);\n\
\x20 }\n\
\n\
\x20 show(view) {\n\
\x20   this.view = view;\n\
\x20   const { failed, node } = view;\n\
\x20   this.found = failed.links.length + failed.nodes.length ? this.domain.failure(failed) : null;\n\
\x20   // What is chosen is not left folded.\n\
\x20   const shown = [node, ...failed.nodes, ...failed.links.flatMap((link) => this.domain.links[link])];\n\
\x20   const hidden = shown.filter((it) => it !== null && !this.drawing.isShown(it));\n\
\x20   if (hidden.length) {\n\
\x20     hidden.forEach((it) => this.opened.add(this.drawing.into[it]));\n\
\x20     this.redraw();\n\
\x20   }\n\
\x20   if (node !== null) {\n\
\x20     this.drawing.setFocus(node);\n\
\x20     this.drawing.bringIn(node);\n\
\x20   }\n\
\x20   this.paint();\n\
\x20   this.showDetail();\n\
\x20   this.failureTable.show(this.failureRows());\n\
\x20   byId(\"said\").textContent = this.said();\n\
\x20 }\n\
\n\
\x20 redraw() {\n\
\x20   this.drawing.place({ layout: byId(\"layout\").value, fold: byId(\"fold\").value, opened: this.opened, root: this.view.node });\n\
\x20   this.paint();\n\
\x20 }\n\
\n\
\x20 // ---- the picture\n\
\n\
\x20 paint() {\n\
\x20   const { drawing, found, view } = this;\n\
\x20   for (const node of drawing.shown) {\n\
\x20     drawing.setNode(node, this.nodeLook(node));\n\
\x20   }\n\
\x20   for (const link of drawing.links.keys()) {\n\
\x20     drawing.setLink(link, this.linkLook(link));\n\
\x20   }\n\
\x20   drawing.setMarks({ arrows: this.arrows(), links: view.failed.links, nodes: view.failed.nodes });\n\
\x20   byId(\"map\").classList.toggle(\"routes\", view.node !== null);\n\
\x20   byId(\"map\").classList.toggle(\"failing\", found !== null);\n\
\x20   this.showLegend();\n\
\x20 }\n\
\n\
\x20 nodeLook(node) {\n\
\x20   const { domain, found, view } = this;\n\
\x20   const name = `node ${node}, ${domain.data.prefixes[node]}`;\n\
\x20   if (view.failed.nodes.includes(node)) {\n\
\x20     return { looks: [\"failed\"], words: `${name}: has failed` };\n\
\x20   }\n\
\x20   if (view.node !== null) {\n\
\x20     return this.routeLook(node, name);\n\
\x20   }\n\
\x20   if (found) {\n\
\x20     const changes = found.changes.filter((it) => it.from === node);\n\
\x20     const lost = changes.filter((it) => domain.isLost(it)).length;\n\
\x20     const words = `${name}: ${counted(changes.length, \"of its routes changes\", \"of its routes change\")}, ${lost} of them lost`;\n\
\x20     return { looks: [lost ? \"lost\" : changes.length ? \"changed\" : \"\"], form: lost ? \"square\" : \"circle\", count: changes.length || \"\", words };\n\
\x20   }\n\
\x20   const { lost, changed } = domain.data.failures.nodes[node];\n\
\x20   const looks = lost ? [\"harmful\"] : domain.neighbours[node].length ? [] : [\"apart\"];\n\
\x20   return { looks, form: lost ? \"diamond\" : \"circle\", words: `${name}: if it fails, ${this.costs(changed, lost)}` };\n\
\x20 }\n\
\n\
\x20 costs(changed, lost) {\n\
\x20   return `${counted(changed, \"route changes\", \"routes change\")}, ${lost ? counted(lost, \"is lost\", \"are lost\") : \"none is lost\"}`;\n\
\x20 }\n\
\n\
\x20 // A node as one that has a route to the chosen one.\n\
\x20 routeLook(node, name) {\n\
\x20   const { domain, found, view, words } = this;\n\
\x20   const before = domain.tables[node][view.node];\n\
\x20   const after = found ? found.tables[node][view.node] : before;\n\
\x20   const isLost = domain.isLost({ before, after });\n\
\x20   const isNone = after[0] === domain.size;\n\
\x20   const isChanged = !words.isSame(before, after);\n\
\x20   const looks = [node === view.node ? \"chosen\" : isLost ? \"lost\" : isChanged ? \"changed\" : isNone ? \"apart\" : \"\"];\n\
\x20   if (found && node !== view.node && this.isStill(node)) {\n\
\x20     looks.push(\"still\");\n\
\x20   }\n\
\x20   const distance = ([number]) => (number === domain.size ? \"none\" : `${number}`);\n\
\x20   const kept = `${looks.includes(\"still\") ? \"=\" : \"\"}${distance(after)}`;\n\
\x20   const under = before[0] !== after[0] ? `${distance(before)}\\u2192${distance(after)}` : isNone ? \"\" : kept;\n\
\x20   const told = node === view.node ? \"chosen\" : `its route to node ${view.node}: ${words.routes(before, after)}`;\n\
\x20   return { looks, form: isLost ? \"square\" : \"circle\", under, words: `${name}: ${told}` };\n\
\x20 }\n\
\n\
\x20 // Whether a node keeps its route to the chosen one however often what fails comes and goes. That is said of links that fail alone.\n\
\x20 isStill(node) {\n\
\x20   const { domain, found, view } = this;\n\
\x20   const [before, after] = [domain.tables[node][view.node], found.tables[node][view.node]];\n\
\x20   return !view.failed.nodes.length && before[0] < found.still[view.node] && before[0] < domain.size && before[1] === after[1];\n\
\x20 }\n\
\n\
\x20 linkLook(link) {\n\
\x20   const { domain, view, words } = this;\n\
\x20   const { changed, lost } = domain.data.failures.links[link];\n\
\x20   const looks = view.failed.links.includes(link) ? [\"failed\"] : this.found || view.node !== null ? [] : lost ? [\"harmful\"] : [];\n\
\x20   const told = view.failed.links.includes(link) ? \"has failed\" : `if it fails, ${this.costs(changed, lost)}`;\n\
\x20   return { looks, width: view.node === null && !this.found ? this.widthOf(changed) : 1.5, words: `link ${words.link(link)}: ${told}` };\n\
\x20 }\n\
\n\
\x20 // A link is drawn the wider, the more routes change where it fails.\n\
\x20 widthOf(changed) {\n\
\x20   const most = Math.max(...this.domain.data.failures.links.map((it) => it.changed), 1);\n\
\x20   return (1 + 4 * Math.sqrt(changed / most)).toFixed(2);\n\
\x20 }\n\
\n\
\x20 // The next hops of routes to the chosen node, and where they are others now also those before.\n\
\x20 arrows() {\n\
\x20   const { domain, found, view, words } = this;\n\
\x20   if (view.node === null) {\n\
\x20     return [];\n\
\x20   }\n\
\x20   return domain.tables.flatMap((table, from) => {\n\
\x20     const before = table[view.node];\n\
\x20     const after = found ? found.tables[from][view.node] : before;\n\
\x20     const isChanged = !words.isSame(before, after);\n\
\x20     const drawn = (route, looks) => (route[1] === null ? [] : [{ from, to: route[1], looks }]);\n\
\x20     const isOtherHop = before[1] !== after[1];\n\
\x20     return [...(isOtherHop ? drawn(before, \"before\") : []), ...drawn(after, isChanged ? \"changed\" : \"\")];\n\
\x20   });\n\
\x20 }\n\
\n\
\x20 showLegend() {\n\
\x20   const { found, view } = this;\n\
\x20   const sign = (looks, element, attributes) => svgElement(\"svg\", { viewBox: \"-11 -11 22 22\", class: \"symbol\", \"aria-hidden\": \"true\" },\n\
\x20     svgElement(\"g\", { class: looks }, svgElement(element, attributes)));\n\
\x20   const symbol = (looks, form) => sign(`node ${looks}`, \"path\", { class: \"shape\", d: outline(form, 7) });\n\
\x20   const line = (looks) => sign(looks, \"line\", { x1: -10, x2: 10, y1: 0, y2: 0, class: \"wire\", \"stroke-width\": 3 });\n\
\x20   const path = (looks) => sign(\"\", \"path\", { class: `arrow ${looks}`, d: arrow([-14, 0], [14, 0], 3) });\n\
\x20   const entries = [];\n\
\x20   if (view.node === null && !found) {\n\
\x20     entries.push([line(\"link\"), \"link: the wider, the more routes change where it fails\"], [line(\"link harmful\"), \"its failure cuts nodes off\"],\n\
\x20       [symbol(\"harmful\", \"diamond\"), \"the failure of this node cuts others off from one another\"], [symbol(\"apart\", \"circle\"), \"has no links\"]);\n\
\x20   }\n\
\x20   if (found) {\n\
\x20     entries.push([sign(\"\", \"path\", { class: \"cross\", d: cross([0, 0], 6) }), \"has failed\"]);\n\
\x20   }\n\
\x20   if (view.node !== null) {\n\
\x20     entries.push([symbol(\"chosen\", \"circle\"), \"chosen\"], [path(\"\"), \"next hop to it; the distance stands under each node\"]);\n\
\x20   }\n\
\x20   if (found) {\n\
\x20     const what = view.node === null ? \"some of its routes change, so many\" : \"its route is another\";\n\
\x20     entries.push([symbol(\"changed\", \"circle\"), what], [symbol(\"lost\", \"square\"), view.node === null ? \"some are lost\" : \"its route is lost\"]);\n\
\x20   }\n\
\x20   if (found && view.node !== null) {\n\
\x20     entries.push([path(\"changed\"), \"next hop of a route that is another\"], [path(\"before\"), \"next hop before\"]);\n\
\x20     if (!view.failed.nodes.length) {\n\
\x20       entries.push([symbol(\"still\", \"circle\"), \"with =: keeps its route, however often what fails comes and goes\"]);\n\
\x20     }\n\
\x20   } else if (view.node !== null) {\n\
\x20     entries.push([symbol(\"apart\", \"circle\"), \"has no route to it\"]);\n\
\x20   }\n\
\x20   byId(\"legend\").replaceChildren(...entries.map((entry) => make(\"li\", {}, ...entry)));\n\
\x20 }\n\
\n\
\x20 // ---- the tables\n\
\n\
\x20 makeTables() {\n\
\x20   const { domain, words } = this;\n\
\x20   const figure = (name, word, title) => ({ name, title, isNumber: true, key: (it) => it[word], show: (it) => it[word].toLocaleString(\"en\") });\n\
\x20   const failing = (it) => (it.link ? { links: [it.place], nodes: [] } : { links: [], nodes: [it.place] });\n\
\x20   const nameOf = (it) => (it.link ? words.link(it.place) : `${it.place}`);\n\
\x20   this.failureTable = new Table(\"What each failure changes, by itself\", [\n\
\x20     { name: \"Fails\", key: (it) => it.place, show: (it) => this.failButton(nameOf(it), failing(it)) },\n\
\x20     // Of those by which as many are lost the one that changes most comes first.\n\
\x20     {\n\
\x20       ...figure(\"Lost\", \"lost\", \"so many routes are lost\"),\n\
\x20       key: (it) => it.lost * domain.size ** 2 + it.changed, look: (it) => (it.lost ? \"is-lost\" : \"\"),\n\
\x20     },\n\
\x20     figure(\"Changed\", \"changed\", \"so many routes have another distance or next hop\"),\n\
\x20     figure(\"Moved\", \"moved\", \"to so many nodes some distance is another\"),\n\
\x20     figure(\"Rounds\", \"rounds\", \"after so many rounds all is told, at most\"),\n\
\x20     { ...figure(\"Still\", \"still\", \"below this distance none is another\"), show: (it) => (it.still === domain.size ? \"all\" : `< ${it.still}`) },\n\
\x20   ], { column: 1, isDown: true });\n\
\x20   this.failureTable.limit = Infinity;\n\
\x20   this.failureTable.isChosen = (it) => (it.link ? this.view.failed.links : this.view.failed.nodes).includes(it.place);\n\
\x20   this.changeTable = new Table(\"Routes that change\", [\n\
\x20     { name: \"From\", key: (it) => it.from, show: (it) => this.nodeButton(it.from) },\n\
\x20     { name: \"To\", key: (it) => it.to, show: (it) => this.nodeButton(it.to) },\n\
\x20     { name: \"Before\", key: (it) => it.before[0], show: (it) => words.route(it.before) },\n\
\x20     { name: \"After\", key: (it) => it.after[0], show: (it) => words.route(it.after), look: (it) => (domain.isLost(it) ? \"is-lost\" : \"is-changed\") },\n\
\x20   ], { column: 0, isDown: false });\n\
\x20   const isOther = ({ before, after }) => !words.isSame(before, after);\n\
\x20   const routes = (name, word) => ({\n\
\x20     name, key: (it) => it[word].after[0], show: (it) => words.routes(it[word].before, it[word].after),\n\
\x20     look: ({ [word]: it }) => (!isOther(it) ? \"\" : domain.isLost(it) ? \"is-lost\" : \"is-changed\"),\n\
\x20   });\n\
\x20   this.routeTable = new Table(\"Its table, and who reaches it through whom\", [\n\
\x20     // Nodes with a route that is another come first.\n\
\x20     { name: \"Node\", key: (it) => (isOther(it.out) || isOther(it.back) ? it.node - domain.size : it.node), show: (it) => this.nodeButton(it.node) },\n\
\x20     { name: \"Prefix\", key: (it) => addressOf(domain.data.prefixes[it.node].split(\"/\")[0]), show: (it) => domain.data.prefixes[it.node] },\n\
\x20     routes(\"Route to it\", \"out\"), routes(\"Its route here\", \"back\"),\n\
\x20   ], { column: 0, isDown: false });\n\
\x20 }\n\
\n\
\x20 nodeButton(node) {\n\
\x20   return button(`${node}`, () => this.choose(node), { className: \"go\", \"aria-label\": `node ${node}` });\n\
\x20 }\n\
\n\
\x20 linkButton(link) {\n\
\x20   return this.failButton(this.words.link(link), { links: [link], nodes: [] });\n\
\x20 }\n\
\n\
\x20 failButton(text, failing) {\n\
\x20   return button(text, (event) => this.fail(failing, event.shiftKey), { className: \"go\", title: \"What if it fails?\" });\n\
\x20 }\n\
\n\
\x20 // A button that mends what has failed.\n\
\x20 mendButton(kind, name, failed) {\n\
\x20   return button(`${name} \\u00d7`, () => this.fail(failed, true), { \"aria-label\": `mend the ${kind} ${name}` });\n\
\x20 }\n\
\n\
\x20 failureRows() {\n\
\x20   return this.domain.data.failures[this.kind].map((it, place) => ({ ...it, place }));\n\
\x20 }\n\
\n\
\x20 // ---- what is chosen, in words and tables\n\
\n\
\x20 showDetail() {\n\
\x20   const { found, view } = this;\n\
\x20   const parts = [];\n\
\x20   if (found) {\n\
\x20     parts.push(...this.failureDetail());\n\
\x20   }\n\
\x20   if (view.node !== null) {\n\
\x20     parts.push(...this.nodeDetail());\n\
\x20   }\n\
\x20   byId(\"detail\").replaceChildren(...(parts.length ? parts : this.overview()));\n\
\x20 }\n\
\n\
\x20 overview() {\n\
\x20   const { links, nodes } = this.domain.data.failures;\n\
\x20   const harmfulLinks = links.flatMap((it, link) => (it.lost ? [this.linkButton(link)] : []));\n\
\x20   const harmfulNodes = nodes.filter((it) => it.lost).map((it) => this.nodeButton(it.node));\n\
\x20   const { longest, phases } = this.domain.data.reach;\n\
\x20   return [\n\
\x20     make(\"h2\", {}, \"At a glance\"),\n\
\x20     make(\"p\", {}, `The longest route has a distance of ${longest}. From nothing, all is told after at most ${counted(phases, \"round\")}.`),\n\
\x20     this.harmful(\"link\", harmfulLinks), this.harmful(\"node\", harmfulNodes),\n\
\x20     make(\"p\", { className: \"hint\" }, \"Choose a link to see what its failure changes, and a node to see its routes. With Shift one more fails.\"),\n\
\x20   ];\n\
\x20 }\n\
\n\
\x20 // Which single failures cut nodes off. Where there are many, the table beside says which.\n\
\x20 harmful(kind, buttons) {\n\
\x20   const harm = kind === \"link\" ? \"cuts nodes off\" : \"cuts others off from one another\";\n\
\x20   if (!buttons.length) {\n\
\x20     return make(\"p\", {}, `No failure of a single ${kind} ${harm}.`);\n\
\x20   }\n\
\x20   const text = `The failure of ${buttons.length === 1 ? `one ${kind}` : `each of ${buttons.length} ${kind}s`} ${harm}`;\n\
\x20   const isMany = buttons.length > FOUND_AT_MOST;\n\
\x20   return make(\"p\", {}, `${text}${isMany ? \".\" : \":\"}`, ...(isMany ? [] : buttons));\n\
\x20 }\n\
\n\
\x20 failureDetail() {\n\
\x20   const { domain, found, view, words } = this;\n\
\x20   const { counts, failed } = found;\n\
\x20   const name = words.ifFails(failed);\n\
\x20   const chips = [\n\
\x20     ...failed.links.map((link) => this.mendButton(\"link\", words.link(link), { links: [link], nodes: [] })),\n\
\x20     ...failed.nodes.map((node) => this.mendButton(\"node\", `${node}`, { links: [], nodes: [node] })),\n\
\x20     button(\"Mend all\", () => this.go({ ...view, failed: NOTHING })),\n\
\x20   ];\n\
\x20   const facts = [\n\
\x20     [\"Routes that change\", counts.changed], [\"Routes that are lost\", counts.lost], [\"Nodes to which some distance is another\", counts.moved],\n\
\x20     [\"Rounds until all is told, at most\", counts.rounds],\n\
\x20     [\"Distance below which nothing moves\", counts.still === domain.size ? \"none moves\" : counts.still],\n\
\x20   ];\n\
\x20   const list = make(\"dl\", {}, ...facts.map(([term, fact]) => make(\"div\", {}, make(\"dt\", {}, term), make(\"dd\", {}, fact.toLocaleString(\"en\")))));\n\
\x20   const parts = [make(\"h2\", {}, name), make(\"p\", { className: \"buttons\" }, ...chips), list];\n\
\x20   if (domain.differs(found)) {\n\
\x20     const alarm = \"The program says other numbers of this failure than this page finds. Do not trust the page.\";\n\
\x20     parts.unshift(make(\"p\", { className: \"alarm\", role: \"alert\" }, alarm));\n\
\x20   }\n\
\x20   if (failed.links.length === 1 && !failed.nodes.length) {\n\
\x20     parts.push(this.linkFilters(failed.links[0]));\n\
\x20   }\n\
\x20   if (view.node !== null) {\n\
\x20     parts.push(make(\"p\", {}, this.bound()));\n\
\x20   } else if (found.changes.length) {\n\
\x20     this.changeTable.limit = FIRST_ROWS;\n\
\x20     parts.push(this.changeTable.show(found.changes));\n\
\x20   }\n\
\x20   return parts;\n\
\x20 }\n\
\n\
\x20 // How near the failure is felt, towards the chosen node.\n\
\x20 bound() {\n\
\x20   const { domain, found, view } = this;\n\
\x20   const bound = found.still[view.node];\n\
\x20   if (bound === domain.size) {\n\
\x20     return `To node ${view.node} no distance is another.`;\n\
\x20   }\n\
\x20   const often = view.failed.nodes.length ? \"\" : \", however often what fails comes and goes\";\n\
\x20   return `To node ${view.node} no distance below ${bound} changes${often}.`;\n\
\x20 }\n\
\n\
\x20 // The filters between the two ends of a link, for each direction in the order in which a route passes them.\n\
\x20 linkFilters(link) {\n\
\x20   const { link: [u, w], exports, imports } = this.domain.data.links[link];\n\
\x20   const named = (filter) => (filter === null ? [] : [this.filterButton(filter)]);\n\
\x20   const way = (from, to, told, received) => {\n\
\x20     const passes = [...named(told).flatMap((it) => [\" export \", it]), ...named(received).flatMap((it) => [\" import \", it])];\n\
\x20     return make(\"li\", {}, `What ${from} tells ${to}:`, ...(passes.length ? passes : [\" no filter\"]));\n\
\x20   };\n\
\x20   return make(\"ul\", { className: \"plain\" }, way(u, w, exports[0], imports[1]), way(w, u, exports[1], imports[0]));\n\
\x20 }\n\
\n\
\x20 filterButton(filter) {\n\
\x20   return button(this.domain.data.filters[filter].name, () => this.showFilter(filter), { className: \"go\" });\n\
\x20 }\n\
\n\
\x20 nodeDetail() {\n\
\x20   const { domain, found, view } = this;\n\
\x20   const { node } = view;\n\
\x20   const rows = [...domain.tables.keys()].filter((other) => other !== node).map((other) => {\n\
\x20     const pair = (from, to) => ({ before: domain.tables[from][to], after: (found ?? domain).tables[from][to] });\n\
\x20     return { node: other, out: pair(node, other), back: pair(other, node) };\n\
\x20   });\n\
\x20   const links = domain.neighbours[node].flatMap((it) => [this.linkButton(it.link), \" \"]);\n\
\x20   this.routeTable.limit = FIRST_ROWS;\n\
\x20   return [\n\
\x20     make(\"h2\", {}, `Node ${node}`),\n\
\x20     make(\"p\", {}, `${domain.data.prefixes[node]}, ${counted(links.length / 2, \"link\")} `, ...links),\n\
\x20     make(\"p\", { className: \"buttons\" },\n\
\x20       button(\"What if it fails?\", () => this.fail({ links: [], nodes: [node] })), button(\"Close\", () => this.choose(null))),\n\
\x20     this.routeTable.show(rows),\n\
\x20   ];\n\
\x20 }\n\
\n\
\x20 // ---- filters\n\
\n\
\x20 showFilters() {\n\
\x20   const { filters } = this.domain.data;\n\
\x20   byId(\"filters\").hidden = !filters.length;\n\
\x20   byId(\"filter-list\").replaceChildren(...filters.map((filter, number) => this.filterElement(filter, number)));\n\
\x20 }\n\
\n\
\x20 filterElement(filter, number) {\n\
\x20   const { data } = this.domain;\n\
\x20   const use = (it, place, word, end) =>\n\
\x20     make(\"li\", {}, `${it.link[end]} ${word} ${word === \"exports\" ? \"to\" : \"from\"} ${it.link[1 - end]}: `, this.linkButton(place));\n\
\x20   const uses = data.links.flatMap((it, place) => [\"exports\", \"imports\"].flatMap((word) =>\n\
\x20     it[word].flatMap((used, end) => (used === number ? [use(it, place, word, end)] : []))));\n\
\x20   const effects = filter.effects.map(({ distances, nodes }) => make(\"li\", {}, `${this.words.nodes(nodes)}: ${this.words.effect(distances)}`));\n\
\x20   const used = uses.length ? `used ${counted(uses.length, \"time\")}` : \"not used\";\n\
\x20   return make(\"details\", { id: `filter-${number}` },\n\
\x20     make(\"summary\", {}, make(\"strong\", {}, filter.name), `, line ${filter.line}, ${used}`),\n\
\x20     make(\"pre\", {}, filter.text ?? \"(a code file)\"),\n\
\x20     make(\"p\", {}, `At most ${counted(filter.budget, \"step\")}, ${counted(filter.depth, \"operand\")}. What it makes of distances to`),\n\
\x20     make(\"ul\", { className: \"plain\" }, ...effects),\n\
\x20     uses.length ? make(\"details\", {}, make(\"summary\", {}, \"Where it is used\"), make(\"ul\", { className: \"plain\" }, ...uses)) : null,\n\
\x20     make(\"details\", {}, make(\"summary\", {}, \"Its code\"), make(\"pre\", {}, filter.listing.join(\"\\n\"))));\n\
\x20 }\n\
\n\
\x20 showFilter(number) {\n\
\x20   const element = byId(`filter-${number}`);\n\
\x20   element.open = true;\n\
\x20   element.querySelector(\"summary\").focus();\n\
\x20   element.scrollIntoView({ block: \"nearest\" });\n\
\x20 }\n\
\n\
\x20 // ---- search\n\
\n\
\x20 // What a text finds: a node by its number, nodes by a part of their prefix or by an address in it, links by both ends, and filters by a part of\n\
\x20 // their name.\n\
\x20 search(text) {\n\
\x20   const { data, links } = this.domain;\n\
\x20   const sought = text.trim().toLowerCase();\n\
\x20   if (!sought) {\n\
\x20     return [];\n\
\x20   }\n\
\x20   const ends = sought.match(/^(\\d+)\\s*[-\\u2013 ]\\s*(\\d*)$/);\n\
\x20   const ranked = data.prefixes.map((prefix, node) => ({ node, prefix, rank: rankOf(sought, node, prefix) })).filter((it) => it.rank > 0);\n\
\x20   ranked.sort((a, b) => b.rank - a.rank || a.node - b.node);\n\
\x20   const isLink = ([u, w]) => [[u, w], [w, u]].some(([a, b]) => `${a}` === ends[1] && `${b}`.startsWith(ends[2]));\n\
\x20   const pairs = ends ? links.flatMap((pair, link) => (isLink(pair) ? [link] : [])) : [];\n\
\x20   const named = data.filters.flatMap((filter, number) => (filter.name.toLowerCase().includes(sought) ? [number] : []));\n\
\x20   return [\n\
\x20     ...pairs.map((link) => [`link ${this.words.link(link)}`, () => this.fail({ links: [link], nodes: [] })]),\n\
\x20     ...ranked.map(({ node, prefix }) => [`node ${node}, ${prefix}`, () => this.choose(node)]),\n\
\x20     ...named.map((number) => [`filter ${data.filters[number].name}, line ${data.filters[number].line}`, () => this.showFilter(number)]),\n\
\x20   ].slice(0, FOUND_AT_MOST);\n\
\x20 }\n\
\n\
\x20 showFound() {\n\
\x20   const found = this.search(byId(\"search\").value);\n\
\x20   const isNothing = byId(\"search\").value.trim() && !found.length;\n\
\x20   const foundButton = (text, action) => button(text, () => {\n\
\x20     byId(\"search\").value = \"\";\n\
\x20     this.showFound();\n\
\x20     action();\n\
\x20   });\n\
\x20   const entries = isNothing ? [\"nothing is found\"] : found.map(([text, action]) => foundButton(text, action));\n\
\x20   byId(\"found\").replaceChildren(...entries.map((entry) => make(\"li\", {}, entry)));\n\
\x20 }\n\
\n\
\x20 // ---- what happens\n\
\n\
\x20 said() {\n\
\x20   const { found, view } = this;\n\
\x20   const parts = [];\n\
\x20   if (found) {\n\
\x20     parts.push(`${this.words.ifFails(found.failed)}, ${this.costs(found.counts.changed, found.counts.lost)}.`);\n\
\x20   }\n\
\x20   if (view.node !== null) {\n\
\x20     parts.push(`Routes to node ${view.node} are shown.`);\n\
\x20   }\n\
\x20   return parts.join(\" \") || \"Nothing is chosen.\";\n\
\x20 }\n\
\n\
\x20 listen() {\n\
\x20   for (const [id, factor] of [[\"closer\", 1 / 1.4], [\"farther\", 1.4]]) {\n\
\x20     byId(id).addEventListener(\"click\", () => this.drawing.zoom(factor));\n\
\x20   }\n\
\x20   byId(\"whole\").addEventListener(\"click\", () => this.drawing.look(this.drawing.whole));\n\
\x20   byId(\"layout\").addEventListener(\"change\", () => this.redraw());\n\
\x20   byId(\"fold\").addEventListener(\"change\", () => {\n\
\x20     this.opened.clear();\n\
\x20     this.redraw();\n\
\x20   });\n\
\x20   for (const kind of [\"links\", \"nodes\"]) {\n\
\x20     byId(`kind-${kind}`).addEventListener(\"click\", () => this.showKind(kind));\n\
\x20   }\n\
\x20   byId(\"search\").addEventListener(\"input\", () => this.showFound());\n\
\x20   byId(\"search\").addEventListener(\"keydown\", (event) => {\n\
\x20     if (event.key === \"Enter\") {\n\
\x20       // What is chosen may take the focus; it is not to be told of the key, too.\n\
\x20       event.preventDefault();\n\
\x20       byId(\"found\").querySelector(\"button\")?.click();\n\
\x20     }\n\
\x20   });\n\
\x20   byId(\"theme\").addEventListener(\"click\", () => setTheme(document.documentElement.dataset.theme === \"dark\" ? \"light\" : \"dark\"));\n\
\x20   document.addEventListener(\"keydown\", (event) => this.key(event));\n\
\x20   // On paper nothing can be opened, so the texts of filters are.\n\
\x20   window.addEventListener(\"beforeprint\", () => byId(\"filter-list\").querySelectorAll(\":scope > details\").forEach((it) => {\n\
\x20     it.open = true;\n\
\x20   }));\n\
\x20   window.addEventListener(\"popstate\", () => this.show(readAddress(this.domain, location.hash)));\n\
\x20 }\n\
\n\
\x20 showKind(kind) {\n\
\x20   this.kind = kind;\n\
\x20   for (const other of [\"links\", \"nodes\"]) {\n\
\x20     byId(`kind-${other}`).setAttribute(\"aria-pressed\", other === kind);\n\
\x20   }\n\
\x20   this.failureTable.show(this.failureRows());\n\
\x20 }\n\
\n\
\x20 key(event) {\n\
\x20   const isTyping = /^(INPUT|SELECT|TEXTAREA)$/.test(event.target.tagName);\n\
\x20   if (event.key === \"Escape\") {\n\
\x20     byId(\"search\").value = \"\";\n\
\x20     this.showFound();\n\
\x20     this.go({ failed: NOTHING, node: null });\n\
\x20   } else if (!isTyping && !event.ctrlKey && !event.metaKey && !event.altKey) {\n\
\x20     const named = { \"/\": \"search\", \"+\": \"closer\", \"-\": \"farther\", 0: \"whole\" };\n\
\x20     if (Object.hasOwn(named, event.key)) {\n\
\x20       event.preventDefault();\n\
\x20       byId(named[event.key])[event.key === \"/\" ? \"focus\" : \"click\"]();\n\
\x20     }\n\
\x20   }\n\
\x20 }\n\
\n\
\x20 // Shows the page for the first time.\n\
\x20 begin() {\n\
\x20   const { data, links, size } = this.domain;\n\
\x20   document.title = `${this.file}: routing domain`;\n\
\x20   byId(\"name\").textContent = this.file;\n\
\x20   byId(\"size\").textContent = `${counted(size, \"node\")}, ${counted(links.length, \"link\")}, ${counted(data.filters.length, \"filter\")}`;\n\
\x20   byId(\"fold\").value = size > MANY ? \"leaves\" : \"none\";\n\
\x20   this.redraw();\n\
\x20   byId(\"failure-table\").replaceChildren(this.failureTable.element);\n\
\x20   this.showFilters();\n\
\x20   this.show(readAddress(this.domain, location.hash));\n\
\x20   // The routes without a failure are found here too, as a check; after the page is seen, since that takes a moment.\n\
\x20   setTimeout(() => this.check());\n\
\x20 }\n\
\n\
\x20 check() {\n\
\x20   const { tables, size } = this.domain;\n\
\x20   const found = this.domain.tablesWithout(NOTHING);\n\
\x20   const isSame = tables.every((table, from) => table.every((route, to) => this.words.isSame(route, found[from][to])));\n\
\x20   byId(\"check\").textContent = isSame ? `This page finds all ${(size * size).toLocaleString(\"en\")} routes that the program says.`\n\
\x20     : \"This page finds other routes than the program says. Do not trust what it shows of failures.\";\n\
\x20   byId(\"check\").className = isSame ? \"\" : \"alarm\";\n\
\x20 }\n\
}\n\
\n\
function rankOf(sought, node, prefix) {\n\
\x20 if (`${node}` === sought) {\n\
\x20   return 3;\n\
\x20 }\n\
\x20 if (/^\\d+(\\.\\d+){3}$/.test(sought)) {\n\
\x20   const [address, length] = parsedPrefix(prefix);\n\
\x20   return Math.floor(addressOf(sought) / 2 ** (32 - length)) === Math.floor(address / 2 ** (32 - length)) ? 2 : 0;\n\
\x20 }\n\
\x20 return prefix.includes(sought) && sought.length > 1 ? 1 : 0;\n\
}\n\
\n\
function setTheme(theme) {\n\
\x20 document.documentElement.dataset.theme = theme;\n\
\x20 byId(\"theme\").textContent = theme === \"dark\" ? \"Light\" : \"Dark\";\n\
}\n\
\n\
function readJson(id) {\n\
\x20 return JSON.parse(byId(id).textContent);\n\
}\n\
\n\
const prefersDark = window.matchMedia(\"(prefers-color-scheme: dark)\");\n\
prefersDark.addEventListener(\"change\", () => setTheme(prefersDark.matches ? \"dark\" : \"light\"));\n\
setTheme(prefersDark.matches ? \"dark\" : \"light\");\n\
new Page(new Domain(readJson(\"domain\")), readJson(\"file\")).begin();\n\
</script>\n\
</body>\n\
</html>\n\
";
